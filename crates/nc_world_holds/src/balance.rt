//! What was granted is somewhere, once.
ghost use Rattle.nc_world_holds.specs.Balance.{ServedBalances, ReachedHolds};
ghost use Rattle.nc_world_holds.specs.Counts.{ReachedCounts};

/// In the part of a worker's step beside its owner, what came with a packet is released, or kept.
pub fn served_balances()
    ensures { ServedBalances }
{}

/// In each reached world, what an owner granted to a worker was released, is on its way, or is kept, whatever grants are
/// counted: all of one slot, or the one of a number.
pub fn reached_holds()
    ensures { ReachedHolds }
{}

/// In each reached world each owner counts the holds of each of its slots: those granted less those released.
pub fn reached_counts()
    ensures { ReachedCounts }
{}

//! A channel that is gone.
ghost use Rattle.nc_world_calls.specs.Losing.{LossKnows, LossSendsNothing, LossStands};

/// Nobody is sent anything in the step of a worker that hears it.
pub fn loss_sends_nothing()
    ensures { LossSendsNothing }
{}

/// Each subscriber that is left stands at the key of its spool.
pub fn loss_stands()
    ensures { LossStands }
{}

/// What is so of each place that is left is kept.
pub fn loss_knows()
    ensures { LossKnows }
{}

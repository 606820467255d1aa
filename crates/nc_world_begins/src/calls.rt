//! The calls of a worker's spools on a history.
ghost use Rattle.nc_world_begins.specs.Calls.{EdgeHolds, EdgeStarts, LossHolds, NewestHolds};

/// The answer to an edge leaves what is so of each start.
pub fn edge_holds()
    ensures { EdgeHolds }
{}

/// Whom it starts, it starts by its edges.
pub fn edge_starts()
    ensures { EdgeStarts }
{}

/// A subscriber that begins behind the newest messages asks for an edge of each of its channels.
pub fn newest_holds()
    ensures { NewestHolds }
{}

/// A channel that is gone leaves what is so of each start that is left.
pub fn loss_holds()
    ensures { LossHolds }
{}

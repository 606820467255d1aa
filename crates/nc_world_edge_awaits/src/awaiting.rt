//! Awaited edges.
ghost use Rattle.nc_world_edge_awaits.specs.Awaits.{AwaitedEdgeIsUnanswered};

/// A worker took no answer to an edge that one of its starts awaits.
pub fn awaited_edge_is_unanswered()
    ensures { AwaitedEdgeIsUnanswered }
{}

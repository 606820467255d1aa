//! The answer to an edge.
ghost use Rattle.nc_world_calls.specs.Edging.{EdgeSendsNothing};

/// Nobody is sent anything in its step.
pub fn edge_sends_nothing()
    ensures { EdgeSendsNothing }
{}

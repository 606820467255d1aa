//! Messages that were found.
ghost use Rattle.nc_world_wakes.specs.Held.{FoundIsHeld};

/// Each worker of a reached world keeps the hold of each message that a place of its spools found.
pub fn found_is_held()
    ensures { FoundIsHeld }
{}

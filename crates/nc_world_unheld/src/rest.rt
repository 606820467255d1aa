//! What is held where no look is awaited.
ghost use Rattle.nc_world_unheld.specs.Rest.{KeptAreUsed, UnheldAtRest};

/// Each hold that a worker keeps between two steps is of a message that was found at a place.
pub fn kept_are_used()
    ensures { KeptAreUsed }
{}

/// Where no packet is pending and no place awaits a look, no worker keeps a hold, and every hold was released.
pub fn unheld_at_rest()
    ensures { UnheldAtRest }
{}

//! Wakes.
ghost use Rattle.nc_world_wakes.specs.Wakes.{NoWakeIsLost};

/// In each reached world no wake is lost.
pub fn no_wake_is_lost()
    ensures { NoWakeIsLost }
{}

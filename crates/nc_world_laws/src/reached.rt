//! Reached worlds.
ghost use Rattle.nc_world_laws.specs.Laws.{ReachedIsGood};

/// What is good holds of each reached world.
pub fn reached_is_good()
    ensures { ReachedIsGood }
{}

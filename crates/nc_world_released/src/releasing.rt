//! Holds at quiet.
ghost use Rattle.nc_world_released.specs.Released.{HistoriesRelease};

/// At quiet no slot has a hold.
pub fn histories_release()
    ensures { HistoriesRelease }
{}

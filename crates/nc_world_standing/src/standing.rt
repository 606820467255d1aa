//! The standing rule.
ghost use Rattle.nc_world_standing.specs.HistoriesStand.{HistoriesStand};

/// The history of each reached world keeps the standing rule.
pub fn histories_stand()
    ensures { HistoriesStand }
{}

//! What is so when no alert is pending.
ghost use Rattle.nc_world_awaits.specs.Awaits.{HistoriesRest};

/// At quiet nobody who stands lacks a buffered message of its channels.
pub fn histories_rest()
    ensures { HistoriesRest }
{}

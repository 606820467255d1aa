//! The stages of subscribers, as the spools say them.
ghost use Rattle.nc_spool_members.specs.Stages.{KeepStages};
ghost use Rattle.nc_spool_members.specs.Starts.{KeepStarts};

/// By the facts of each call a subscriber has the stage that the spools say after it.
pub fn stay_staged<H>()
    ensures { KeepStages H }
{}

/// One that begins before the oldest message or behind a given id is started as it comes.
pub fn known_starts_start<H>()
    ensures { KeepStarts H }
{}

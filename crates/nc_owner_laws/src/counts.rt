//! A buffered slot and its entry count the grants since the message was stored.
ghost use Rattle.nc_owner_laws.specs.Counted.{NewCount, StepsKeepCount, EntriesCount};

/// Unused slots count nothing.
pub fn new_count()
    ensures { NewCount }
{}

/// Each step of an owner keeps that slots count what the history tells.
pub fn steps_keep_count()
    ensures { StepsKeepCount }
{}

/// Then so do the entries of each channel.
pub fn entries_count()
    ensures { EntriesCount }
{}

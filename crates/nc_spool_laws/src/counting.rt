//! What is counted of all spools between two calls.
ghost use Rattle.nc_spool_laws.specs.Numbers.{KeepsApart};
ghost use Rattle.nc_spool_laws.specs.Tally.{KeepsTally};

/// Each call keeps the numbers apart that places and starts await, and below the next number.
pub fn stay_apart()
    ensures { KeepsApart }
{}

/// Who comes stands from then on, in one spool or start, and who stands no longer was ended.
pub fn stay_tallied()
    ensures { KeepsTally }
{}

//! Between two calls a spool with a message that was found still waits for a look.
ghost use Rattle.nc_spool_laws.specs.Resting.{Restful};

/// Each call leaves all spools so.
pub fn stay_restful()
    ensures { Restful }
{}

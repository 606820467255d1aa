//! What each place knows between two calls.
ghost use Rattle.nc_spool_laws.specs.Knowing.{KnowingRule};

/// Whatever is said of looks, of answers and of messages, each call keeps it of what the places know.
pub fn stay_knowing()
    ensures { KnowingRule }
{}

//! Starts that were good when they were made are lawful.
ghost use Rattle.nc_starts.specs.Newest.{NewestStarts};
ghost use Rattle.nc_starts.specs.Starts.{StartsStay};
ghost use Rattle.nc_starts.specs.EdgesTold.{EdgesCursor, ToldStarts};

/// A start by its edges is lawful, whatever is stored later.
pub fn newest_starts()
    ensures { NewestStarts }
{}

/// Starts that were good when they were made are lawful.
pub fn starts_stay()
    ensures { StartsStay }
{}

/// What the edges of each place told gives the start.
pub fn told_starts()
    ensures { ToldStarts }
{}

/// The cursor that a spool draws from the edges of a start is the one behind their last ids.
pub fn edges_cursor()
    ensures { EdgesCursor }
{}

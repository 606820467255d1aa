//! Counters and worn workers.
ghost use Rattle.nc_world_worn.specs.Laws.{CountersAreTold, WornIsShown, WornIsTold};

use nc_world_follows::journal::fit_lines_reach;

/// Each counter of a worker stands as far behind the first number as the journal shows.
pub fn counters_are_told()
    ensures { CountersAreTold }
{}

/// A worker is worn exactly where the journal shows it.
pub fn worn_is_shown()
    ensures { WornIsShown }
{}

/// Where a line meets a worn worker after some moves, the journal after a settle of as many shows that a worker is worn.
pub fn worn_is_told()
    ensures { WornIsTold }
{
    fit_lines_reach();
}

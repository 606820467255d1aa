//! Lawful histories.
ghost use Rattle.nc_world_lawful.specs.Lawful.{HistoriesAreLawful, JournalsAreLawful};

use nc_world_follows::journal::fit_lines_reach;

/// The history of each reached world is lawful.
pub fn histories_are_lawful()
    ensures { HistoriesAreLawful }
{}

/// The journal of lines that fit is lawful, follows the lines, and has the owners' steps in it.
pub fn journals_are_lawful()
    ensures { JournalsAreLawful }
{
    fit_lines_reach();
}

//! The journal of a script's lines.
ghost use Rattle.nc_world_follows.specs.Laws.{FitLinesReach, ReachedIsBusy, OwnersRuleHolds, EndingRuleHolds, JournalFollows};

use nc_world::histories::lines_reach;

/// Lines that fit lead to a reached world, whose history is their journal.
pub fn fit_lines_reach()
    ensures { FitLinesReach }
{
    lines_reach();
}

/// Between two steps each hold that a worker keeps has a use.
pub fn reached_is_busy()
    ensures { ReachedIsBusy }
{}

/// Behind each alert that is taken stands what the owner that the journal tells does with it.
pub fn owners_rule_holds()
    ensures { OwnersRuleHolds }
{
    fit_lines_reach();
}

/// Subscribers are ended by a deletion where their workers take the alerts that tell so.
pub fn ending_rule_holds()
    ensures { EndingRuleHolds }
{
    fit_lines_reach();
}

/// The journal follows the lines.
pub fn journal_follows()
    ensures { JournalFollows }
{
    fit_lines_reach();
}

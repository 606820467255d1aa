//! No slot has more holds than it can have, over each step of an owner.
ghost use Rattle.nc_owner_laws.specs.HoldsKept.{NewHoldsFit, HoldsKept, ToldPolls, ToldAnswersFit};

/// Unused slots have no holds.
pub fn new_holds_fit()
    ensures { NewHoldsFit }
{}

/// Each step of an owner keeps it, and each release, where the numbers of holds are told.
pub fn holds_kept()
    ensures { HoldsKept }
{}

/// Then the answers that the numbers of holds give are those of a publish's polls.
pub fn told_polls()
    ensures { ToldPolls }
{}

/// And they fit the slots.
pub fn told_answers_fit()
    ensures { ToldAnswersFit }
{}

//! Looks and their answers.
ghost use Rattle.nc_world_looks.specs.Looks.{LooksAreAnswered, RestedLooks, AnswersAreAsked};

/// Each look that a worker asked an owner for is pending there, or the owner answered it.
pub fn looks_are_answered()
    ensures { LooksAreAnswered }
{}

/// Where nothing is pending between the two, the worker took the answer to each.
pub fn rested_looks()
    ensures { RestedLooks }
{}

/// An owner answers no look that the worker didn't ask for.
pub fn answers_are_asked()
    ensures { AnswersAreAsked }
{}

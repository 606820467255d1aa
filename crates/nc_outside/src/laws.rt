//! What follows from the definitions. The function does nothing: its contract is the laws.
ghost use Rattle.nc_outside.specs.Laws.{GivesOnce, GivesAllOnce, NeverGoesOn};

/// What a source gave between two moments is one text, if it is one at all.
pub fn one_text()
    ensures to_the_end { GivesAllOnce }
    ensures so_far { GivesOnce }
    ensures ended { NeverGoesOn }
{}

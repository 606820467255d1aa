//! Moves and their histories.
ghost use Rattle.nc_world.specs.Laws.{MoreMoves, LinesReach};

/// Moves that can be made lead on from a reached world.
pub fn more_moves()
    ensures { MoreMoves }
{}

/// The lines of a script lead to a reached world, whose history is their journal.
pub fn lines_reach()
    ensures { LinesReach }
{}

//! The two ways of settling are one.
ghost use Rattle.nc_turns.specs.Laws.{TurnsSettle, TurnsMeetWorn};

/// By the turns of a round, settling leads to the world of a settle's moves and tells their events.
pub fn turns_settle()
    ensures { TurnsSettle }
{}

/// As many turns that do something come before one that meets a worn worker as moves of a settle do.
pub fn turns_meet_worn()
    ensures { TurnsMeetWorn }
{}

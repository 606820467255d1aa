//! Facts as events.
ghost use Rattle.nc_world_told.specs.Laws.{WrittenAppends, WrittenIsTold};

/// Facts are written as their deeds are told.
pub fn written_is_told()
    ensures { WrittenIsTold }
{}

/// Facts behind others are written on what these wrote.
pub fn written_appends()
    ensures { WrittenAppends }
{}

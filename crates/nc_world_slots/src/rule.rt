//! The points of the slot rule.
ghost use Rattle.nc_world_slots.specs.Points.{SlotsAreFreed, HoldsAreReleased, HistoriesHold};

/// A slot is freed that is retired, and that nobody holds then.
pub fn slots_are_freed()
    ensures { SlotsAreFreed }
{}

/// A hold is released once, by the worker that it was granted to, which took the alert that carries it.
pub fn holds_are_released()
    ensures { HoldsAreReleased }
{}

/// Both, and a message takes the lowest unused slot, and each number of a grant is drawn once.
pub fn histories_hold()
    ensures { HistoriesHold }
{}

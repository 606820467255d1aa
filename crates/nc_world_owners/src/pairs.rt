//! Packets between workers, and slots and grants over the whole history.
ghost use Rattle.nc_world_owners.specs.Pairs.{PacketsAreBetween, CountsAreTold, HistoriesTakeSlots, GrantsAreDrawnOnce};

/// Packets go between workers that are there, and nothing is pending between others.
pub fn packets_are_between()
    ensures { PacketsAreBetween }
{}

/// Where it is told how many alerts are pending, so many are, and at quiet none is.
pub fn counts_are_told()
    ensures { CountsAreTold }
{}

/// The lowest unused slot is taken, and a slot is freed that is retired.
pub fn histories_take_slots()
    ensures { HistoriesTakeSlots }
{}

/// Each number of a grant is drawn once.
pub fn grants_are_drawn_once()
    ensures { GrantsAreDrawnOnce }
{}

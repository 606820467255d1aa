//! Numbers of looks and edges, and looks that were asked for.
ghost use Rattle.nc_world_asks.specs.Asks.{ReachedAskWell, ReachedAsks};
ghost use Rattle.nc_world_asks.specs.Drawing.{KeepsDrawn};

/// Each call of spools draws each number once.
pub fn numbers_are_drawn_once()
    ensures { KeepsDrawn }
{}

/// In each reached world each number was drawn once, and the looks that owners made were asked for.
pub fn looks_are_asked()
    ensures { ReachedAsks }
{}

/// So each worker asks well.
pub fn workers_ask_well()
    ensures { ReachedAskWell }
{}

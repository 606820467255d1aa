//! The holds that are kept.
ghost use Rattle.std.specs.Prelude.{List};
ghost use Rattle.nc_spool_state.specs.declared.kept.Held.{Held};
ghost use Rattle.nc_spool_laws.specs.Holding.{KeepsHeld, HoldsRule};
ghost use Rattle.nc_spool_laws.specs.Idle.{IdleRule};

/// Each call sends only messages whose holds are kept.
pub fn sends_are_held<H>()
    ensures { (kept : List (Held H)) → KeepsHeld kept }
{}

/// Holds are kept in ascending order, and what is found stays held when a hold is kept and when an idle one is taken.
pub fn holds_are_used<H>()
    ensures { HoldsRule H }
{}

/// The hold that is released is the least one without a use, and none is where each has a use.
pub fn least_idle_is_released<H>()
    ensures { IdleRule H }
{}

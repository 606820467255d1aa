//! What is asked of owners, and behind which fences.
ghost use Rattle.std.specs.Prelude.{ℕ, Bool};
ghost use Rattle.nc_spool_laws.specs.Rules.{EnteringRule};
ghost use Rattle.nc_spool_laws.specs.Fences.{KeepsFenceTests};

/// A subscriber that enters where its spool stands makes no look.
pub fn standing_spools_are_entered_quietly()
    ensures { EnteringRule }
{}

/// Each fence is 0, the time of a message that was found, or that of an id that an owner answered.
pub fn fences_are_told()
    ensures { (is : ℕ → Bool) → KeepsFenceTests is }
{}

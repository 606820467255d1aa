//! What the rule of slots means, in each state of the words and seats that keeps it, as each state between two steps does.
//! There is no code here: each function's contract is a law.
ghost use Rattle.std.specs.Prelude.{◌≡◌, ◌<◌, true, ℕ, Some, List, slice_index};
ghost use mathlib.Core.Option.{some};
ghost use lib.ListN.{get_elem?};
ghost use Rattle.nc_slots.specs.Slot.{is_unused, most_holds};
ghost use Rattle.nc_slot_rule.specs.Views.{Owns, slot_in};
ghost use Rattle.nc_slot_rule.specs.Rule.{Kept, live};
ghost use Rattle.nc_slot_rule.specs.Steps.{holds_in};
ghost use Rattle.nc_slot_rule.specs.declared.view.Seen.{Seen as SeenAt};

/// A slot that its owner calls unused has no live hold: it is freed only where none lives.
pub fn freed_is_unheld()
    ensures { (words : List ℕ) (views : List SeenAt) (owner word : ℕ) (v : SeenAt) → Kept words views → get_elem? views owner ≡ some v
        → Owns v word → is_unused (slot_in v word) ≡ true → live word views ≡ 0 }
{}

/// A slot that its owner knows to be clear has no live hold, and no poll finds one until it is granted.
pub fn clear_is_unheld()
    ensures { (words : List ℕ) (views : List SeenAt) (owner word : ℕ) (v : SeenAt) → Kept words views → get_elem? views owner ≡ some v
        → Owns v word → most_holds (slot_in v word) ≡ 0 → live word views ≡ 0 }
{}

/// The number of holds that a slot's word shows is that of its live holds.
pub fn word_counts_holds()
    ensures { (words : List ℕ) (views : List SeenAt) (owner word : ℕ) (v : SeenAt) → Kept words views → get_elem? views owner ≡ some v
        → Owns v word → holds_in (slot_in v word) (slice_index words word) ≡ live word views }
{}

/// The slot of a live hold is one of its owner's that can have holds: it is neither unused nor known to be clear.
pub fn held_is_kept()
    ensures { (words : List ℕ) (views : List SeenAt) (owner holder word : ℕ) (v w : SeenAt) → Kept words views
        → get_elem? views owner ≡ some v → Owns v word → get_elem? views holder ≡ some w → w.hold ≡ Some word
        → 0 < most_holds (slot_in v word) }
{}

/// The word of a slot that its owner calls unused is 0.
pub fn unused_is_zero()
    ensures { (words : List ℕ) (views : List SeenAt) (owner word : ℕ) (v : SeenAt) → Kept words views → get_elem? views owner ≡ some v
        → Owns v word → is_unused (slot_in v word) ≡ true → slice_index words word ≡ 0 }
{}

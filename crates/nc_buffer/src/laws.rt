//! What follows from the definitions, proved once for all lists of entries.
//!
//! Each function does nothing: its contract is the law.
ghost use Rattle.std.specs.Prelude.{ℕ, Bool, List};
ghost use Rattle.nc_types.specs.Id.{Id};
ghost use Rattle.nc_buffer.specs.declared.entry.Entry.{Entry};
ghost use Rattle.nc_buffer.specs.Laws.{TakesOne, LeavesOthers, TakenIsGone, CanGrant, LookFinds};

/// Entries that pass a test are taken out in their order, those that don't stay, and where none passes nothing leaves.
pub fn takes_one()
    ensures { (test : Entry → Bool) (entries : List Entry) → TakesOne test entries }
{}

/// Entries that are taken out one after the other, until none passes the test, leave those that don't pass.
pub fn leaves_others()
    ensures { (times : ℕ) (test : Entry → Bool) (entries : List Entry) → LeavesOthers times test entries }
{}

/// The id of an entry that is taken out of a buffer is kept no longer.
pub fn taken_is_gone()
    ensures { (test : Entry → Bool) (entries : List Entry) → TakenIsGone test entries }
{}

/// Where no entry is spent, each can be granted once more.
pub fn can_grant()
    ensures { (entries : List Entry) → CanGrant entries }
{}

/// At the place that a look finds stands the oldest entry past the id.
pub fn look_finds()
    ensures { (after : Id) (entries : List Entry) → LookFinds after entries }
{}

//! What follows from the definitions, proved once for all histories.
//!
//! Each function does nothing: its contract is the law.
ghost use Rattle.std.specs.Prelude.{ℕ, List};
ghost use Rattle.nc_journal.specs.declared.event.Event.{Event};
ghost use Rattle.nc_journal.specs.Message.{RisingLaw};
ghost use Rattle.nc_journal.specs.Refused.{UnendedIsRefused, UnremovedIsRefused};
ghost use Rattle.nc_journal.specs.Slots.{IsByLastNaming, HoldsLaw};
ghost use Rattle.nc_journal.specs.Text.{TextGrows};

/// Under the stamp rule the ids of each channel rise strictly over the whole history,
/// also where the channel was removed and made again.
pub fn ids_rise()
    ensures { RisingLaw }
{}

/// The text of a history on which events are put is its text and then their lines.
pub fn text_grows()
    ensures { (events history : List Event) → TextGrows events history }
{}

/// A slot is in the stage in which the last event that names it left it.
pub fn last_naming_tells()
    ensures { (slot : ℕ) → IsByLastNaming slot }
{}

/// Under the slot rule the holds of a slot are its grants without its releases, none of which lacks a grant.
pub fn holds_are_granted()
    ensures { HoldsLaw }
{}

/// No history ends behind the message that ends a subscriber, without its end.
pub fn unended_is_refused()
    ensures { UnendedIsRefused }
{}

/// No lawful history ends behind a message that leaves by a deletion, without the removal of its channel.
pub fn unremoved_is_refused()
    ensures { UnremovedIsRefused }
{}

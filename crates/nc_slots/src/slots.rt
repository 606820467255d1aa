//! What owners and workers see of slots.
ghost use Rattle.std.specs.Prelude.{◌≡◌, ◌≢◌, ◌+◌, ◌-◌, ℕ, Bool, true, List, Some, IfOk, IfErr, OnOk, OnErr, is_none, slice_index, slice_set};
ghost use Rattle.nc_types.specs.Message.{Message};
ghost use Rattle.nc_slots.specs.Slot.{slot_at, is_buffered, lowest_unused, filled, message_of, granted, retired, polled, CanGrant};
ghost use Rattle.nc_slots.specs.Slots.{HoldAt, handed_back, is_full, is_held, answer, PollFits};
ghost use Rattle.nc_slots.specs.declared.slot.Slot.{Slot};

use nc_types::{Msg, NoMemory};

/// Why a message wasn't put, with the message.
#[derive(Drop)]
pub enum PutRefusal {
    /// The owner has no unused slot.
    Full(Msg),
    /// There was no memory.
    NoMemory(Msg),
}

/// What a poll of a slot answers.
#[derive(Clone, Copy)]
pub enum Polled {
    /// Nobody holds the slot's message, and the slot is unused now.
    Freed,
    /// Nobody holds the slot's message, and the slot is buffered.
    Clear,
    /// So many holds of the slot's message stand.
    Held { count: u64 },
}

/// The slots of all owners, from which each owner grants holds of its messages.
///
/// Slots are numbered from 0 for each owner. Owners are named by their worker's number.
/// Where an owner or a slot isn't there, or the slot isn't buffered, `grant` answers `NoMemory` and nothing changes;
/// `retire` then does nothing, nor does `poll` of an unused slot, which answers `Freed`.
pub trait Slots {
    /// What a worker has of a message that was granted to it.
    type Hold: Drop;

    /// The slots of an owner.
    ghost slots: { Self → ℕ → List (Slot Message) };

    /// Whether the numbers of holds are told.
    ghost exact: { Bool };

    /// How many holds each slot of an owner has, where this is told.
    ghost holds: { Self → ℕ → List ℕ };

    /// What a hold is of.
    ghost held: { Self.Hold → HoldAt };

    /// Puts a message into the lowest unused slot of an owner, and answers the slot's number.
    /// `Full` comes exactly where the owner has none.
    fn put(&mut self, owner: u8, msg: Msg) -> Result<u32, PutRefusal>
        ensures lowest { IfOk result (λ slot. lowest_unused (slots self.old owner) ≡ Some slot) }
        ensures put { IfOk result (λ slot. slots self.new owner ≡ slice_set (slots self.old owner) slot (filled msg)) }
        ensures full { IfErr result (λ refusal. is_full refusal ≡ is_none (lowest_unused (slots self.old owner))) }
        ensures back { IfErr result (λ refusal. handed_back refusal ≡ msg) }
        ensures err { OnErr result (slots self.new owner ≡ slots self.old owner) }
        ensures others { (o : ℕ) → o ≢ owner → slots self.new o ≡ slots self.old o }
        ensures holds { exact ≡ true → (o : ℕ) → holds self.new o ≡ holds self.old o };

    /// Grants a hold of a buffered slot's message, at most [`MOST_GRANTS`](crate::MOST_GRANTS) times.
    fn grant(&mut self, owner: u8, slot: u32) -> Result<Self::Hold, NoMemory>
        ensures can { OnOk result (CanGrant (slot_at (slots self.old owner) slot)) }
        ensures granted { OnOk result (slots self.new owner ≡ slice_set (slots self.old owner) slot (granted (slot_at (slots self.old owner) slot))) }
        ensures place { IfOk result (λ hold. ((held hold).owner ≡ owner) × ((held hold).slot ≡ slot)) }
        ensures message { IfOk result (λ hold. message_of (slot_at (slots self.old owner) slot) ≡ Some (held hold).message) }
        ensures err { OnErr result (slots self.new owner ≡ slots self.old owner) }
        ensures others { (o : ℕ) → o ≢ owner → slots self.new o ≡ slots self.old o }
        ensures one_hold { exact ≡ true → OnOk result (holds self.new owner
            ≡ slice_set (holds self.old owner) slot (slice_index (holds self.old owner) slot + 1)) }
        ensures no_hold { exact ≡ true → OnErr result (holds self.new owner ≡ holds self.old owner) }
        ensures other_holds { exact ≡ true → (o : ℕ) → o ≢ owner → holds self.new o ≡ holds self.old o };

    /// The message of a hold.
    fn message<'h>(&self, hold: &'h Self::Hold) -> &'h Msg
        ensures { result.now ≡ (held hold.now).message };

    /// Gives a hold back.
    fn release(&mut self, hold: Self::Hold)
        ensures slots { (o : ℕ) → slots self.new o ≡ slots self.old o }
        ensures one_hold { exact ≡ true → holds self.new (held hold).owner
            ≡ slice_set (holds self.old (held hold).owner) (held hold).slot (slice_index (holds self.old (held hold).owner) (held hold).slot - 1) }
        ensures other_holds { exact ≡ true → (o : ℕ) → o ≢ (held hold).owner → holds self.new o ≡ holds self.old o };

    /// Takes a buffered slot's message out of grant. Those who hold it keep it.
    fn retire(&mut self, owner: u8, slot: u32)
        ensures retired { slots self.new owner ≡ slice_set (slots self.old owner) slot (retired (slot_at (slots self.old owner) slot)) }
        ensures others { (o : ℕ) → o ≢ owner → slots self.new o ≡ slots self.old o }
        ensures holds { exact ≡ true → (o : ℕ) → holds self.new o ≡ holds self.old o };

    /// Asks whether somebody holds a slot's message. A retired slot that nobody holds is unused from then on.
    /// After `Clear` no poll of the slot answers `Held` until it is granted.
    fn poll(&mut self, owner: u8, slot: u32) -> Polled
        ensures fits { PollFits (slot_at (slots self.old owner) slot) result }
        ensures told { exact ≡ true → result ≡ answer (is_buffered (slot_at (slots self.old owner) slot)) (slice_index (holds self.old owner) slot) }
        ensures polled { slots self.new owner ≡ slice_set (slots self.old owner) slot (polled (is_held result) (slot_at (slots self.old owner) slot)) }
        ensures others { (o : ℕ) → o ≢ owner → slots self.new o ≡ slots self.old o }
        ensures holds { exact ≡ true → (o : ℕ) → holds self.new o ≡ holds self.old o };
}

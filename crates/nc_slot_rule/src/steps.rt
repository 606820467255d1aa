//! The steps on the words of slots. Each changes or reads one word at once, takes no memory and waits for nobody.
ghost use Rattle.std.specs.Prelude.{◌≡◌, ◌≤◌, ◌<◌, ◌+◌, ◌*◌, true, Some, None, IfOk, [], nat_lt};
ghost use Rattle.nc_slots.specs.Slot.{is_unused, is_buffered, filled, granted, retired, polled, most_holds, CanGrant};
ghost use Rattle.nc_slot_rule.specs.Views.{bit_of, Owns, slot_in, with_slot, all_unused, rest_of, part_of};
ghost use Rattle.nc_slot_rule.specs.Steps.{holds_in, IsAt};

use crate::rule::{Grant, Pass, Poll, Put, Release, ToHold, ToOwner, Unbuffer, Words};
use crate::view::Size;
use nc_types::NoMemory;
use std::alloc::Global;

/// An unused slot of the seat is buffered from then on: its word becomes 1.
#[tactic(auto, using(crate::proofs::Allowed::put_allowed))]
pub fn put(words: &Words, pass: &mut Pass, word: usize)
    requires at { IsAt words.now.shared.table_id pass.old.table_id word }
    requires slot { Owns pass.old.me.0 word × (is_unused (slot_in pass.old.me.0 word) ≡ true) }
    ensures same { (pass.new.table_id ≡ pass.old.table_id) × (pass.new.id ≡ pass.old.id) }
    ensures view { pass.new.me ≡ (with_slot pass.old.me.0 word (filled tt), pass.old.me.1) }
{
    words.shared.swap::<Put>(pass, word, 1);
}

/// A new live hold of a buffered slot of the seat, which has a seat of its own: 2 more in its word.
#[tactic(auto, using(crate::proofs::Allowed::grant_allowed, crate::proofs::Allowed::to_hold))]
pub fn grant(words: &Words, pass: &mut Pass, word: usize) -> Pass
    requires at { IsAt words.now.shared.table_id pass.old.table_id word }
    requires slot { Owns pass.old.me.0 word × CanGrant (slot_in pass.old.me.0 word) }
    requires idle { pass.old.me.0.granting ≡ None }
    ensures same { (pass.new.table_id ≡ pass.old.table_id) × (pass.new.id ≡ pass.old.id) × (result.table_id ≡ pass.old.table_id) }
    ensures view { pass.new.me ≡ (with_slot pass.old.me.0 word (granted (slot_in pass.old.me.0 word)), pass.old.me.1) }
    ensures hold { (result.me.0.hold ≡ Some word) × (result.me.1 ≡ []) }
{
    words.shared.fetch_add::<Grant>(pass, word, 2);
    words.shared.split_seat::<ToHold>(pass)
}

/// A live hold is given back: 2 less in its word.
#[tactic(auto, using(crate::proofs::Allowed::release_allowed))]
pub fn release(words: &Words, mut hold: Pass, word: usize)
    requires at { IsAt words.now.shared.table_id hold.table_id word }
    requires live { hold.me.0.hold ≡ Some word }
{
    words.shared.fetch_sub::<Release>(&mut hold, word, 2);
}

/// A buffered slot of the seat is buffered no longer, but retired: 1 less in its word.
#[tactic(auto, using(crate::proofs::Allowed::unbuffer_allowed))]
pub fn unbuffer(words: &Words, pass: &mut Pass, word: usize)
    requires at { IsAt words.now.shared.table_id pass.old.table_id word }
    requires slot { Owns pass.old.me.0 word × (is_buffered (slot_in pass.old.me.0 word) ≡ true) }
    ensures same { (pass.new.table_id ≡ pass.old.table_id) × (pass.new.id ≡ pass.old.id) }
    ensures view { pass.new.me ≡ (with_slot pass.old.me.0 word (retired (slot_in pass.old.me.0 word)), pass.old.me.1) }
{
    words.shared.fetch_sub::<Unbuffer>(pass, word, 1);
}

/// The word of a slot of the seat. Where it shows no hold, a buffered slot is known to be clear and a retired one is unused.
#[tactic(auto, using(crate::proofs::Allowed::poll_allowed))]
pub fn load(words: &Words, pass: &mut Pass, word: usize) -> u64
    requires at { IsAt words.now.shared.table_id pass.old.table_id word }
    requires slot { Owns pass.old.me.0 word }
    ensures same { (pass.new.table_id ≡ pass.old.table_id) × (pass.new.id ≡ pass.old.id) }
    ensures view { pass.new.me ≡ (
      with_slot pass.old.me.0 word (polled (nat_lt 0 (holds_in (slot_in pass.old.me.0 word) result))
          (slot_in pass.old.me.0 word)),
      pass.old.me.1,
    ) }
    ensures word { result ≡ bit_of (slot_in pass.old.me.0 word) + 2 * holds_in (slot_in pass.old.me.0 word) result }
    ensures most { holds_in (slot_in pass.old.me.0 word) result ≤ most_holds (slot_in pass.old.me.0 word) }
{
    words.shared.load::<Poll>(pass, word)
}

/// Cuts the slots of one owner off the seat that has all that are left.
#[tactic(auto, using(crate::proofs::Allowed::to_owner))]
pub fn next_owner(words: &Words, rest: &mut Pass) -> Pass
    requires at { IsAt words.now.shared.table_id rest.old.table_id 0 }
    ensures same { (rest.new.table_id ≡ rest.old.table_id) × (result.table_id ≡ rest.old.table_id) }
    ensures view { (rest.new.me ≡ (rest_of rest.old.me.0, rest.old.me.1)) × (result.me ≡ (part_of rest.old.me.0, [])) }
{
    words.shared.split_seat::<ToOwner>(rest)
}

/// So many words, each of an unused slot, and the seat that has all of these slots.
pub fn unused(alloc: Global, size: Size) -> Result<(Words, Pass), NoMemory>
    ensures words { IfOk result (λ made. made.0.shared.table_id.words ≡ size.words) }
    ensures seat { IfOk result (λ made. (made.1.table_id ≡ made.0.shared.table_id) × (made.1.me ≡ (all_unused size.per size.words, []))) }
{
    let zeros = vec![in alloc; 0u64; size.words as usize]?;
    Ok(Words::of_words(alloc, zeros.as_slice(), &size)?)
}

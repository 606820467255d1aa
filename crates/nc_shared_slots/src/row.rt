//! The slots of one owner over the words that all threads share.
ghost use Rattle.std.specs.Prelude.{◌≡◌, ◌-◌, ◌/◌, Some, IfOk, IfErr, OnOk, OnErr, is_none, slice_set, if◌then◌else◌};
ghost use Rattle.nc_slots.specs.Slot.{slot_at, lowest_unused, filled, message_of, granted, retired, polled, CanGrant};
ghost use Rattle.nc_slots.specs.Slots.{handed_back, is_full, is_held, answer, PollFits};

use crate::hold::SharedHold;
use crate::naming::Naming;
use nc_slot_rule::{Pass, Words, steps};
use nc_slots::{Polled, PutRefusal, SlotRow};
use nc_types::{Msg, NoMemory};
use std::alloc::Global;
use std::marker::{Model, PhantomData};
use std::sync::Arc;

/// The slots of one owner, whose words begin with the word `first`. Contracts see them as their list.
#[derive(Drop)]
pub(crate) struct SharedRow<J: Naming> {
    pub(crate) words: Arc<Words, Global>,
    pub(crate) first: usize,
    pub(crate) slots: SlotRow<Arc<Msg, Global>>,
    pub(crate) pass: Pass,
    pub(crate) of: PhantomData<J>,
}

impl<J: Naming> Model for SharedRow<J> {
    ghost use Rattle.std.specs.Prelude.{List as Items};
    ghost use Rattle.std.specs.Arc.{arc_value};
    ghost use Rattle.nc_types.specs.Message.{Message};
    ghost use Rattle.nc_slots.specs.declared.slot.Slot.{Slot as SlotOf};
    ghost use Rattle.nc_shared_slots.specs.Shared.{told, IsRow};

    ghost Value = { Items (SlotOf Message) };

    ghost view = { λ r. told r.slots };

    ghost invariant = { λ r. IsRow J.table (arc_value r.words).shared.table_id r.pass.table_id r.pass.me.0 r.first r.slots };
}

/// How many holds the word of a slot shows, which is buffered or not.
fn holds_in(word: u64, is_buffered: bool) -> u64
    ensures { result ≡ (word - (if is_buffered then 1 else 0)) / 2 }
{
    word.saturating_sub(u64::from(is_buffered)) / 2
}

/// What a poll answers of a slot with so many holds.
fn answer(is_buffered: bool, holds: u64) -> Polled
    ensures { result ≡ answer is_buffered holds }
{
    if holds > 0 {
        Polled::Held { count: holds }
    } else if is_buffered {
        Polled::Clear
    } else {
        Polled::Freed
    }
}

impl<J: Naming> SharedRow<J> {
    pub(crate) fn put(&mut self, alloc: Global, msg: Msg) -> Result<u32, PutRefusal>
        ensures lowest { IfOk result (λ slot. lowest_unused self.old ≡ Some slot) }
        ensures put { IfOk result (λ slot. self.new ≡ slice_set self.old slot (filled msg)) }
        ensures full { IfErr result (λ refusal. is_full refusal ≡ is_none (lowest_unused self.old)) }
        ensures back { IfErr result (λ refusal. handed_back refusal ≡ msg) }
        ensures err { OnErr result (self.new ≡ self.old) }
    {
        match self.slots.lowest_unused() {
            None => Err(PutRefusal::Full(msg)),
            Some(slot) => match Arc::new(alloc, msg) {
                Ok(message) => {
                    steps::put(&self.words, &mut self.pass, self.first + slot as usize);
                    self.slots.put(slot, message);
                    Ok(slot)
                }
                Err(refused) => Err(PutRefusal::NoMemory(refused.value)),
            },
        }
    }

    pub(crate) fn grant(&mut self, owner: u8, slot: u32) -> Result<SharedHold<J>, NoMemory>
        ensures can { OnOk result (CanGrant (slot_at self.old slot)) }
        ensures granted { OnOk result (self.new ≡ slice_set self.old slot (granted (slot_at self.old slot))) }
        ensures place { IfOk result (λ hold. (hold.owner ≡ owner) × (hold.slot ≡ slot)) }
        ensures message { IfOk result (λ hold. message_of (slot_at self.old slot) ≡ Some hold.message) }
        ensures err { OnErr result (self.new ≡ self.old) }
    {
        let Some(message) = self.slots.grantable(slot) else {
            return Err(NoMemory);
        };
        let message = Arc::try_clone(message)?;
        let word = self.first + slot as usize;
        let pass = steps::grant(&self.words, &mut self.pass, word);
        self.slots.grant(slot);
        Ok(SharedHold {
            owner,
            slot,
            message,
            word,
            pass,
            of: PhantomData,
        })
    }

    pub(crate) fn release(&self, hold: SharedHold<J>) {
        let SharedHold { word, pass, .. } = hold;
        steps::release(&self.words, pass, word);
    }

    pub(crate) fn retire(&mut self, slot: u32)
        ensures { self.new ≡ slice_set self.old slot (retired (slot_at self.old slot)) }
    {
        if self.slots.is_buffered(slot) {
            steps::unbuffer(&self.words, &mut self.pass, self.first + slot as usize);
            self.slots.retire(slot);
        }
    }

    pub(crate) fn poll(&mut self, slot: u32) -> Polled
        ensures fits { PollFits (slot_at self.old slot) result }
        ensures polled { self.new ≡ slice_set self.old slot (polled (is_held result) (slot_at self.old slot)) }
    {
        if self.slots.is_unused(slot) {
            return Polled::Freed;
        }
        let is_buffered = self.slots.is_buffered(slot);
        let word = steps::load(&self.words, &mut self.pass, self.first + slot as usize);
        let holds = holds_in(word, is_buffered);
        self.slots.poll(slot, holds > 0);
        answer(is_buffered, holds)
    }
}

//! Slots of one thread, which count the holds of each slot.
ghost use Rattle.std.specs.Prelude.{◌≡◌, ◌<◌, ◌+◌, ◌-◌, ℕ, true, Some, IfOk, IfErr, OnOk, OnErr, is_none, replicate, slice_index, slice_set};
ghost use Rattle.nc_slots.specs.Slot.{slot_at, is_buffered, lowest_unused, filled, message_of, granted, retired, polled, CanGrant};
ghost use Rattle.nc_slots.specs.Slots.{handed_back, is_full, is_held, answer, PollFits};
ghost use Rattle.nc_slots.specs.Plain.{RowAt, row_at, new_row};
ghost use Rattle.nc_slots.specs.declared.slot.Slot.TheVariants.{Unused as IsUnused};

use crate::row::SlotRow;
use crate::slots::{Polled, PutRefusal, Slots};
use nc_types::{Msg, NoMemory};
use std::alloc::Global;
use std::marker::Model;
use std::rc::Rc;

/// A hold of a message in [`PlainSlots`].
#[derive(Drop)]
pub struct PlainHold {
    owner: u8,
    slot: u32,
    message: Rc<Msg, Global>,
}

/// The slots of one owner, with the number of holds of each.
#[derive(Drop)]
struct PlainRow {
    slots: SlotRow<Rc<Msg, Global>>,
    holds: Vec<u32>,
}

impl Model for PlainRow {
    ghost use Rattle.nc_slots.specs.Plain.{RowAt, told, AreHeld};

    ghost Value = { RowAt };

    ghost view = { λ r. record { slots = told r.slots; holds = r.holds.items } };

    ghost invariant = { λ r. AreHeld r.slots r.holds.items };
}

/// What a poll answers of a slot with so many holds.
fn answer(is_buffered: bool, holds: u32) -> Polled
    ensures { result ≡ answer is_buffered holds }
{
    if holds > 0 {
        Polled::Held {
            count: u64::from(holds),
        }
    } else if is_buffered {
        Polled::Clear
    } else {
        Polled::Freed
    }
}

impl PlainRow {
    /// So many slots, all unused.
    fn new(alloc: Global, slots: u32) -> Result<PlainRow, NoMemory>
        ensures { IfOk result (λ row. row ≡ new_row slots) }
    {
        Ok(PlainRow {
            slots: SlotRow::new(alloc, slots)?,
            holds: vec![in alloc; 0u32; slots as usize]?,
        })
    }

    fn put(&mut self, alloc: Global, msg: Msg) -> Result<u32, PutRefusal>
        ensures lowest { IfOk result (λ slot. lowest_unused self.old.slots ≡ Some slot) }
        ensures put { IfOk result (λ slot. self.new.slots ≡ slice_set self.old.slots slot (filled msg)) }
        ensures full { IfErr result (λ refusal. is_full refusal ≡ is_none (lowest_unused self.old.slots)) }
        ensures back { IfErr result (λ refusal. handed_back refusal ≡ msg) }
        ensures err { OnErr result (self.new.slots ≡ self.old.slots) }
        ensures holds { self.new.holds ≡ self.old.holds }
    {
        match self.slots.lowest_unused() {
            None => Err(PutRefusal::Full(msg)),
            Some(slot) => match Rc::new(alloc, msg) {
                Ok(message) => {
                    self.slots.put(slot, message);
                    Ok(slot)
                }
                Err(refused) => Err(PutRefusal::NoMemory(refused.value)),
            },
        }
    }

    fn grant(&mut self, owner: u8, slot: u32) -> Result<PlainHold, NoMemory>
        ensures can { OnOk result (CanGrant (slot_at self.old.slots slot)) }
        ensures granted { OnOk result (self.new.slots ≡ slice_set self.old.slots slot (granted (slot_at self.old.slots slot))) }
        ensures place { IfOk result (λ hold. (hold.owner ≡ owner) × (hold.slot ≡ slot)) }
        ensures message { IfOk result (λ hold. message_of (slot_at self.old.slots slot) ≡ Some hold.message.value) }
        ensures one_hold { OnOk result (self.new.holds ≡ slice_set self.old.holds slot (slice_index self.old.holds slot + 1)) }
        ensures err { OnErr result (self.new ≡ self.old) }
    {
        let Some(message) = self.slots.grantable(slot) else {
            return Err(NoMemory);
        };
        let message = message.clone()?;
        self.slots.grant(slot);
        self.holds[slot as usize] += 1;
        Ok(PlainHold {
            owner,
            slot,
            message,
        })
    }

    fn release(&mut self, slot: u32)
        ensures slots { self.new.slots ≡ self.old.slots }
        ensures one_hold { self.new.holds ≡ slice_set self.old.holds slot (slice_index self.old.holds slot - 1) }
    {
        let slot = slot as usize;
        if slot < self.holds.len() {
            self.holds[slot] = self.holds[slot].saturating_sub(1);
        }
    }

    fn retire(&mut self, slot: u32)
        ensures retired { self.new.slots ≡ slice_set self.old.slots slot (retired (slot_at self.old.slots slot)) }
        ensures holds { self.new.holds ≡ self.old.holds }
    {
        self.slots.retire(slot);
    }

    /// How many holds a slot has, which is 0 where there is none.
    fn holds_of(&self, slot: u32) -> u32
        ensures { result ≡ slice_index self.now.holds slot }
    {
        match self.holds.get(slot as usize) {
            Some(holds) => *holds,
            None => 0,
        }
    }

    fn poll(&mut self, slot: u32) -> Polled
        ensures fits { PollFits (slot_at self.old.slots slot) result }
        ensures told { result ≡ answer (is_buffered (slot_at self.old.slots slot)) (slice_index self.old.holds slot) }
        ensures polled { self.new.slots ≡ slice_set self.old.slots slot (polled (is_held result) (slot_at self.old.slots slot)) }
        ensures holds { self.new.holds ≡ self.old.holds }
    {
        let holds = self.holds_of(slot);
        let answer = answer(self.slots.is_buffered(slot), holds);
        self.slots.poll(slot, holds > 0);
        answer
    }
}

/// The slots of some owners, which one thread uses. All of them have as many slots.
///
/// The numbers of holds are told: a poll answers `Held` exactly where holds of the slot stand, with their number.
/// Contracts see a row of slots for each owner, in the order of their numbers.
#[derive(Drop)]
pub struct PlainSlots {
    alloc: Global,
    rows: Vec<PlainRow>,
}

impl Model for PlainSlots {
    ghost use Rattle.std.specs.Prelude.{List as Items};
    ghost use Rattle.nc_slots.specs.Plain.{RowAt};

    ghost Value = { Items RowAt };

    ghost view = { λ s. s.rows.items };
}

impl PlainSlots {
    /// The slots of so many workers, all unused.
    pub fn new(alloc: Global, workers: u8, slots: u32) -> Result<PlainSlots, NoMemory>
        ensures { IfOk result (λ all. all ≡ replicate workers (new_row slots)) }
    {
        let mut rows = Vec::with_capacity(alloc, usize::from(workers))?;
        for _ in 0..workers {
            rows.push(PlainRow::new(alloc, slots)?)?;
        }
        Ok(PlainSlots { alloc, rows })
    }
}

impl Slots for PlainSlots {
    type Hold = PlainHold;

    ghost slots = { λ all owner. (row_at all owner).slots };

    ghost exact = { true };

    ghost holds = { λ all owner. (row_at all owner).holds };

    ghost held = { λ hold. record { owner = hold.owner; slot = hold.slot; message = hold.message.value } };

    fn put(&mut self, owner: u8, msg: Msg) -> Result<u32, PutRefusal> {
        let owner = usize::from(owner);
        if owner >= self.rows.len() {
            return Err(PutRefusal::Full(msg));
        }
        self.rows[owner].put(self.alloc, msg)
    }

    fn grant(&mut self, owner: u8, slot: u32) -> Result<PlainHold, NoMemory> {
        let row = usize::from(owner);
        if row >= self.rows.len() {
            return Err(NoMemory);
        }
        self.rows[row].grant(owner, slot)
    }

    fn message<'h>(&self, hold: &'h PlainHold) -> &'h Msg {
        &hold.message
    }

    fn release(&mut self, hold: PlainHold) {
        let owner = usize::from(hold.owner);
        if owner < self.rows.len() {
            self.rows[owner].release(hold.slot);
        }
    }

    fn retire(&mut self, owner: u8, slot: u32) {
        let owner = usize::from(owner);
        if owner < self.rows.len() {
            self.rows[owner].retire(slot);
        }
    }

    fn poll(&mut self, owner: u8, slot: u32) -> Polled {
        let owner = usize::from(owner);
        if owner >= self.rows.len() {
            return Polled::Freed;
        }
        self.rows[owner].poll(slot)
    }
}

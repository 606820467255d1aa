//! The slots of one owner, with a way to the lowest unused one.
ghost use Rattle.std.specs.Prelude.{◌≡◌, ◌<◌, ◌≤◌, ◌*◌, ◌/◌, Some, IfOk, IfSome, IfNone, drop, length, position, replicate, slice_set, take};
ghost use Rattle.std.specs.List.{list_any};
ghost use Rattle.nc_slots.specs.Slot.{is_unused, is_buffered, lowest_unused, message_of, slot_at, filled, granted, retired, polled, CanGrant};
ghost use Rattle.nc_slots.specs.declared.slot.Slot.TheVariants.{Unused as IsUnused};

use crate::slot::Slot;
use nc_types::NoMemory;
use std::alloc::Global;
use std::marker::Model;

/// So many slots are looked through at once.
const RUN: usize = 64;

/// The slots of one owner, which contracts see as their list.
///
/// Of each run of 64 slots it keeps whether one is unused, so that the lowest unused slot
/// is found by looking at the runs and then at one of them.
#[derive(Drop)]
pub struct SlotRow<M> {
    slots: Vec<Slot<M>>,
    runs: Vec<bool>,
}

impl<M> Model for SlotRow<M> {
    ghost use Rattle.std.specs.Prelude.{List as Items};
    ghost use Rattle.nc_slots.specs.Row.{IsRow};
    ghost use Rattle.nc_slots.specs.declared.slot.Slot.{Slot as SlotOf};

    ghost Value = { Items (SlotOf M) };

    ghost view = { λ r. r.slots.items };

    ghost invariant = { λ r. IsRow r.slots.items r.runs.items };
}

/// The place of the first run that has an unused slot.
fn first_run(runs: &[bool]) -> Option<usize>
    ensures { result ≡ position (λ run. run) runs.now }
{
    runs.iter().position(|run| *run)
}

/// The place of the first unused slot.
fn first_unused<M: Drop>(slots: &[Slot<M>]) -> Option<usize>
    ensures { result ≡ position is_unused slots.now }
{
    slots.iter().position(|slot| slot.is_unused())
}

/// Whether one of the slots is unused.
fn has_unused<M: Drop>(slots: &[Slot<M>]) -> bool
    ensures { result ≡ list_any is_unused slots.now }
{
    slots.iter().any(|slot| slot.is_unused())
}

/// The run that begins with the slot of a number.
fn run_from<M: Drop>(slots: &[Slot<M>], first: usize) -> &[Slot<M>]
    requires { first ≤ length slots.now }
    ensures { result.now ≡ take 64 (drop first slots.now) }
{
    let rest = &slots[first..];
    &rest[..RUN.min(rest.len())]
}

/// Whether the run of a slot has an unused one.
fn run_has_unused<M: Drop>(slots: &[Slot<M>], slot: usize) -> bool
    requires { slot < length slots.now }
    ensures { result ≡ list_any is_unused (take 64 (drop (slot / 64 * 64) slots.now)) }
{
    has_unused(run_from(slots, slot / RUN * RUN))
}

/// So many unused slots.
fn unused<M: Drop>(alloc: Global, count: usize) -> Result<Vec<Slot<M>>, NoMemory>
    ensures { IfOk result (λ slots. slots.items ≡ replicate count IsUnused) }
{
    let mut slots = Vec::with_capacity(alloc, count)?;
    for _ in 0..count {
        slots.push(Slot::Unused)?;
    }
    Ok(slots)
}

impl<M: Drop> SlotRow<M> {
    /// So many slots, all unused.
    pub fn new(alloc: Global, count: u32) -> Result<SlotRow<M>, NoMemory>
        ensures { IfOk result (λ row. row ≡ replicate count IsUnused) }
    {
        let count = count as usize;
        let slots = unused(alloc, count)?;
        let runs = vec![in alloc; true; count.div_ceil(RUN)]?;
        Ok(SlotRow { slots, runs })
    }

    /// Whether a slot is unused, or not there.
    pub fn is_unused(&self, slot: u32) -> bool
        ensures { result ≡ is_unused (slot_at self.now slot) }
    {
        match self.slots.get(slot as usize) {
            Some(slot) => slot.is_unused(),
            None => true,
        }
    }

    /// Whether a slot is there and buffered.
    pub fn is_buffered(&self, slot: u32) -> bool
        ensures { result ≡ is_buffered (slot_at self.now slot) }
    {
        match self.slots.get(slot as usize) {
            Some(slot) => slot.is_buffered(),
            None => false,
        }
    }

    /// The message of a slot that can be granted once more.
    pub fn grantable(&self, slot: u32) -> Option<&M>
        ensures can { IfSome result (λ _. CanGrant (slot_at self.now slot)) }
        ensures message { IfSome result (λ message. message_of (slot_at self.now slot) ≡ Some message.now) }
        ensures cannot { IfNone result (CanGrant (slot_at self.now slot) → ⊥) }
    {
        self.slots.get(slot as usize)?.grantable()
    }

    /// The lowest unused slot, if there is one.
    pub fn lowest_unused(&self) -> Option<u32>
        ensures { result ≡ lowest_unused self.now }
    {
        let first = first_run(&self.runs)? * RUN;
        let place = first_unused(run_from(&self.slots, first))?;
        Some((first + place) as u32)
    }

    /// Puts a message into an unused slot.
    pub fn put(&mut self, slot: u32, message: M)
        requires { slot < length self.old }
        ensures { self.new ≡ slice_set self.old slot (filled message) }
    {
        let slot = slot as usize;
        self.slots[slot] = Slot::Buffered {
            message,
            clear: false,
            grants: 0,
        };
        self.runs[slot / RUN] = run_has_unused(&self.slots, slot);
    }

    /// Counts one grant more of a slot.
    pub fn grant(&mut self, slot: u32)
        requires { CanGrant (slot_at self.old slot) }
        ensures { self.new ≡ slice_set self.old slot (granted (slot_at self.old slot)) }
    {
        self.slots[slot as usize].grant();
    }

    /// Drops the message of a buffered slot.
    pub fn retire(&mut self, slot: u32)
        ensures { self.new ≡ slice_set self.old slot (retired (slot_at self.old slot)) }
    {
        let slot = slot as usize;
        if slot < self.slots.len() {
            self.slots[slot].retire();
        }
    }

    /// Takes note of a poll of a slot: whether somebody holds its message.
    pub fn poll(&mut self, slot: u32, held: bool)
        ensures { self.new ≡ slice_set self.old slot (polled held (slot_at self.old slot)) }
    {
        let slot = slot as usize;
        if slot < self.slots.len() {
            self.slots[slot].poll(held);
            self.runs[slot / RUN] = run_has_unused(&self.slots, slot);
        }
    }
}

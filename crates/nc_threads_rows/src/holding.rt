//! Holds that one thread grants and another reads and releases, while the first one polls.
ghost use Rattle.std.specs.Prelude.{◌≡◌};

use crate::slot_calls::message;
use crate::words::put_count;
use crossbeam_queue::ArrayQueue;
use nc_shared_slots::{Naming, NewSlots, SharedHold, SharedSlots, shared};
use nc_slots::{Polled, PutRefusal, Slots};
use nc_types::NoMemory;
use std::alloc::Global;
use std::marker::Brand;
use std::sync::Wait;
use std::sync::atomic::{AtomicBool, AtomicU64, Ordering};
use std::thread;
use std::thread::Threads;

/// The slots of the thread that grants.
const SLOTS: u32 = 256;

/// What the two threads share: the holds on their way, how many the reader was about to release, and whether the owner is done.
#[derive(Drop)]
struct Between<J: Naming> {
    holds: ArrayQueue<SharedHold<J>>,
    given_back: AtomicU64,
    is_over: AtomicBool,
}

/// The thread that grants. `numbers` has the number of the message in each slot that isn't freed yet, `freed` counts the
/// slots that were freed, and `early` those that were freed before their hold was given back or whose hold was lost.
#[derive(Drop)]
struct Owner<J: Naming> {
    alloc: Global,
    pool: SharedSlots<J>,
    numbers: Vec<Option<u64>>,
    freed: u64,
    early: u64,
}

/// The thread that reads. `wrong` counts the holds whose message wasn't the next one.
#[derive(Drop)]
struct Reader<J: Naming> {
    pool: SharedSlots<J>,
    read: u64,
    wrong: u64,
}

impl<J: Naming> Owner<J> {
    /// Polls a slot, if it isn't freed yet.
    fn poll(&mut self, between: &Between<J>, slot: u32) {
        let Some(Some(number)) = self.numbers.get(slot as usize).copied() else {
            return;
        };
        if let Polled::Freed = self.pool.poll(0, slot) {
            if between.given_back.load(Ordering::SeqCst) <= number {
                self.early = self.early.saturating_add(1);
            }
            self.freed = self.freed.saturating_add(1);
            if let Some(kept) = self.numbers.get_mut(slot as usize) {
                *kept = None;
            }
        }
    }

    /// Polls all slots.
    fn poll_all(&mut self, between: &Between<J>) {
        for slot in 0..SLOTS {
            self.poll(between, slot);
        }
    }

    /// Grants a hold of the message of a number and retires its slot, where there is one.
    fn grant(&mut self, number: u64) -> Result<Option<SharedHold<J>>, NoMemory> {
        match self.pool.put(0, message(self.alloc, number)) {
            Ok(slot) => {
                let hold = self.pool.grant(0, slot)?;
                self.pool.retire(0, slot);
                if let Some(kept) = self.numbers.get_mut(slot as usize) {
                    *kept = Some(number);
                }
                Ok(Some(hold))
            }
            Err(PutRefusal::Full(_)) => Ok(None),
            Err(PutRefusal::NoMemory(_)) => Err(NoMemory),
        }
    }

    /// Hands the hold of a message to the reader, once a slot is freed for it.
    fn hand_over<R: Wait>(
        &mut self,
        rt: &R,
        between: &Between<J>,
        number: u64,
    ) -> Result<(), NoMemory> {
        for _ in rt.forever() {
            if let Some(hold) = self.grant(number)? {
                if between.holds.push(rt, hold).is_err() {
                    self.early = self.early.saturating_add(1);
                }
                return Ok(());
            }
            self.poll_all(between);
            thread::yield_now();
        }
        unreachable!()
    }

    /// Hands over the holds of so many messages, and polls until all slots are freed.
    fn hand_all<R: Wait>(
        &mut self,
        rt: &R,
        between: &Between<J>,
        count: u64,
    ) -> Result<(), NoMemory> {
        for number in 0..count {
            self.hand_over(rt, between, number)?;
        }
        for _ in rt.forever() {
            self.poll_all(between);
            if self.freed >= count {
                break;
            }
            thread::yield_now();
        }
        Ok(())
    }
}

impl<J: Naming> Reader<J> {
    /// Reads a message and gives its hold back.
    fn read(&mut self, between: &Between<J>, hold: SharedHold<J>) {
        if self.pool.message(&hold).id.time != self.read {
            self.wrong = self.wrong.saturating_add(1);
        }
        self.read = self.read.saturating_add(1);
        between.given_back.store(self.read, Ordering::SeqCst);
        self.pool.release(hold);
    }

    /// Reads what comes until the owner is done.
    fn read_all<R: Wait>(&mut self, rt: &R, between: &Between<J>) {
        for _ in rt.forever() {
            match between.holds.pop(rt) {
                Some(hold) => self.read(between, hold),
                None => {
                    if between.is_over.load(Ordering::SeqCst) {
                        break;
                    }
                    thread::yield_now();
                }
            }
        }
    }
}

/// The owner's thread.
fn own<J: Naming, R: Wait>(
    rt: &R,
    between: &Between<J>,
    mut owner: Owner<J>,
    count: u64,
) -> Result<Owner<J>, NoMemory> {
    let done = owner.hand_all(rt, between, count);
    between.is_over.store(true, Ordering::SeqCst);
    done?;
    Ok(owner)
}

/// The reader's thread.
fn read<J: Naming, R: Wait>(rt: &R, between: &Between<J>, mut reader: Reader<J>) -> Reader<J> {
    reader.read_all(rt, between);
    reader
}

/// An owner and a reader, who have the handles of two workers.
fn both<J: Naming>(alloc: Global, set: NewSlots) -> Result<Option<(Owner<J>, Reader<J>)>, NoMemory>
    requires { set.table ≡ J.table }
{
    let mut handles = set.handles::<J>()?.into_vec();
    let (Some(second), Some(first)) = (handles.pop(), handles.pop()) else {
        return Ok(None);
    };
    let numbers = vec![in alloc; None; SLOTS as usize]?;
    let owner = Owner {
        alloc,
        pool: first,
        numbers,
        freed: 0,
        early: 0,
    };
    let reader = Reader {
        pool: second,
        read: 0,
        wrong: 0,
    };
    Ok(Some((owner, reader)))
}

/// Both threads over a set of slots of two workers.
fn hold_by_two<J: Naming + Send + Sync, R: Threads + Wait + Sync>(
    rt: &R,
    alloc: Global,
    set: NewSlots,
    count: u64,
    out: &mut Vec<u8>,
) -> Result<(), NoMemory>
    requires { set.table ≡ J.table }
{
    let Some((owner, reader)) = both::<J>(alloc, set)? else {
        return Ok(());
    };
    let between = Between {
        holds: ArrayQueue::new(alloc, SLOTS as usize)?,
        given_back: AtomicU64::new(0),
        is_over: AtomicBool::new(false),
    };
    let shared = &between;
    let (owner, reader) = thread::join(
        rt,
        move || own(rt, shared, owner, count),
        move || read(rt, shared, reader),
    );
    let owner = owner?;
    put_count(out, b"read=", reader.read)?;
    put_count(out, b" wrong=", reader.wrong)?;
    put_count(out, b" freed=", owner.freed)?;
    put_count(out, b" freed while held=", owner.early)
}

/// `hold N`
pub fn hold<R: Threads + Wait + Sync>(
    rt: &R,
    alloc: Global,
    count: u64,
    out: &mut Vec<u8>,
) -> Result<(), NoMemory> {
    let set = shared(alloc, 2, SLOTS)?;
    hold_by_two::<Brand, R>(rt, alloc, set, count, out)
}

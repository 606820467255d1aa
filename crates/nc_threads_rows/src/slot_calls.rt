//! Calls on the slots of one worker that has one slot.
ghost use Rattle.std.specs.Prelude.{◌≡◌};

use crate::words::{put, put_count};
use nc_shared_slots::{Naming, NewSlots, shared};
use nc_slots::{PlainSlots, Polled, PutRefusal, Slots};
use nc_types::{GREATEST_TIME, List, Msg, MsgId, NoMemory};
use std::alloc::Global;
use std::marker::Brand;

/// A call of the slot 0 of worker 0; a release gives back the last hold that is left.
#[derive(Drop)]
enum Call {
    Put,
    Grant,
    Retire,
    Poll,
    Release,
}

/// The call that a word names.
fn call_of(word: &str) -> Call {
    match word {
        "put" => Call::Put,
        "grant" => Call::Grant,
        "retire" => Call::Retire,
        "poll" => Call::Poll,
        _ => Call::Release,
    }
}

/// The calls that some words name.
fn calls_of(alloc: Global, words: &str) -> Result<Vec<Call>, NoMemory> {
    let mut calls = Vec::new(alloc);
    for word in words.split(' ') {
        calls.push(call_of(word))?;
    }
    Ok(calls)
}

/// A message without a body, of this time, or of the last one that a message can have.
pub fn message(alloc: Global, time: u64) -> Msg {
    Msg {
        id: MsgId {
            time: time.min(GREATEST_TIME),
            tag: 0,
        },
        body: List::new(alloc),
        content_type: None,
        expires: 0,
    }
}

/// `put`
pub fn put_message<P: Slots>(
    alloc: Global,
    pool: &mut P,
    out: &mut Vec<u8>,
) -> Result<(), NoMemory> {
    match pool.put(0, message(alloc, 100)) {
        Ok(slot) => put_count(out, b"", u64::from(slot)),
        Err(PutRefusal::Full(_)) => put(out, b"full"),
        Err(PutRefusal::NoMemory(_)) => Err(NoMemory),
    }
}

/// `poll`
pub fn poll<P: Slots>(pool: &mut P, out: &mut Vec<u8>) -> Result<(), NoMemory> {
    match pool.poll(0, 0) {
        Polled::Freed => put(out, b"freed"),
        Polled::Clear => put(out, b"clear"),
        Polled::Held { count } => put_count(out, b"held=", count),
    }
}

/// One call, and its answer behind the text.
fn make<P: Slots>(
    alloc: Global,
    pool: &mut P,
    holds: &mut Vec<P::Hold>,
    call: &Call,
    out: &mut Vec<u8>,
) -> Result<(), NoMemory> {
    match call {
        Call::Put => put_message(alloc, pool, out),
        Call::Grant => match pool.grant(0, 0) {
            Ok(hold) => {
                holds.push(hold)?;
                put(out, b"hold")
            }
            Err(NoMemory) => put(out, b"none"),
        },
        Call::Retire => {
            pool.retire(0, 0);
            put(out, b"retired")
        }
        Call::Poll => poll(pool, out),
        Call::Release => {
            if let Some(hold) = holds.pop() {
                pool.release(hold);
            }
            put(out, b"released")
        }
    }
}

/// Some calls, one after the other.
fn make_all<P: Slots>(
    alloc: Global,
    pool: &mut P,
    calls: &[Call],
    out: &mut Vec<u8>,
) -> Result<(), NoMemory> {
    let mut holds = Vec::new(alloc);
    for call in calls {
        put(out, b" ")?;
        make(alloc, pool, &mut holds, call, out)?;
    }
    Ok(())
}

/// The calls on the first handle of a set of slots.
fn make_on<J: Naming>(
    alloc: Global,
    set: NewSlots,
    calls: &[Call],
    out: &mut Vec<u8>,
) -> Result<(), NoMemory>
    requires { set.table ≡ J.table }
{
    let mut handles = set.handles::<J>()?.into_vec();
    match handles.pop() {
        Some(mut pool) => make_all(alloc, &mut pool, calls, out),
        None => Ok(()),
    }
}

/// `shared WORDS`
pub fn shared_calls(alloc: Global, words: &str, out: &mut Vec<u8>) -> Result<(), NoMemory> {
    let calls = calls_of(alloc, words)?;
    let set = shared(alloc, 1, 1)?;
    make_on::<Brand>(alloc, set, calls.as_slice(), out)
}

/// `plain WORDS`
pub fn plain_calls(alloc: Global, words: &str, out: &mut Vec<u8>) -> Result<(), NoMemory> {
    let calls = calls_of(alloc, words)?;
    let mut pool = PlainSlots::new(alloc, 1, 1)?;
    make_all(alloc, &mut pool, calls.as_slice(), out)
}

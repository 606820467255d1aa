//! Steps on the slots of all owners.
use crate::book::Book;
use crate::words::{Words, bytes};
use nc_slots::{PlainSlots, Polled, PutRefusal, Slots};
use nc_types::{Msg, MsgId, NoMemory};
use std::alloc::Global;

/// A message with a body.
fn message(alloc: Global, body: &str) -> Result<Msg, NoMemory> {
    Ok(Msg {
        id: MsgId { time: 100, tag: 0 },
        body: bytes(alloc, body)?,
        content_type: None,
        expires: 0,
    })
}

/// `slot put OWNER BODY`: the slot that takes a message.
fn put(book: &mut Book, pool: &mut PlainSlots, mut words: Words<'_>) -> Result<(), NoMemory> {
    let owner = words.byte();
    match pool.put(owner, message(book.alloc, words.next())?) {
        Ok(slot) => book.print_number(b"", u64::from(slot)),
        Err(PutRefusal::Full(_)) => book.print(b"full"),
        Err(PutRefusal::NoMemory(_)) => Err(NoMemory),
    }
}

/// `slot grant OWNER SLOT`: a hold, under the number of those that are kept.
fn grant(book: &mut Book, pool: &mut PlainSlots, mut words: Words<'_>) -> Result<(), NoMemory> {
    let owner = words.byte();
    match pool.grant(owner, words.slot()) {
        Ok(hold) => {
            let number = book.next_asked();
            book.holds.push((number, hold))?;
            book.print_number(b"hold ", number)
        }
        Err(NoMemory) => book.print(b"none"),
    }
}

/// `slot poll OWNER SLOT`: what a poll answers.
fn poll(book: &mut Book, pool: &mut PlainSlots, mut words: Words<'_>) -> Result<(), NoMemory> {
    let owner = words.byte();
    match pool.poll(owner, words.slot()) {
        Polled::Freed => book.print(b"freed"),
        Polled::Clear => book.print(b"clear"),
        Polled::Held { count } => book.print_number(b"held ", count),
    }
}

/// `slot of OWNERS SLOTS`: the slots of so many owners, all unused.
fn begin(book: &mut Book, pool: &mut PlainSlots, mut words: Words<'_>) -> Result<(), NoMemory> {
    let owners = words.byte();
    *pool = PlainSlots::new(book.alloc, owners, words.slot())?;
    book.begin();
    Ok(())
}

/// A step on the slots.
pub fn slot_step(
    book: &mut Book,
    pool: &mut PlainSlots,
    mut words: Words<'_>,
) -> Result<(), NoMemory> {
    match words.next() {
        "of" => begin(book, pool, words),
        "put" => put(book, pool, words),
        "grant" => grant(book, pool, words),
        "poll" => poll(book, pool, words),
        "retire" => {
            let owner = words.byte();
            pool.retire(owner, words.slot());
            Ok(())
        }
        _ => book.print(b"no such step"),
    }
}

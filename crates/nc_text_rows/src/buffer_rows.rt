//! Rows of `nc_buffer`: calls on a buffer of three entries, one behind the other.
use crate::print::{id_of, number, put_message_id, put_number, put_optional, put_part};
use nc_buffer::{Buffer, Entry, MOST_GRANTS};
use nc_types::{MsgId, NoMemory};
use std::alloc::Global;

const FIRST: Entry = Entry {
    id: MsgId { time: 10, tag: 0 },
    slot: 4,
    expires: 0,
    grants: 4_294_967_294,
};

const SECOND: Entry = Entry {
    id: MsgId { time: 10, tag: 3 },
    slot: 2,
    expires: 20,
    grants: MOST_GRANTS,
};

const THIRD: Entry = Entry {
    id: MsgId { time: 11, tag: 0 },
    slot: 7,
    expires: 15,
    grants: 0,
};

/// A buffer of the three.
fn filled(alloc: Global) -> Result<Buffer, NoMemory> {
    let mut buffer = Buffer::new(alloc);
    buffer.store(FIRST)?;
    buffer.store(SECOND)?;
    buffer.store(THIRD)?;
    Ok(buffer)
}

fn put_entry(out: &mut Vec<u8>, entry: Entry) -> Result<(), NoMemory> {
    put_message_id(out, &entry.id)?;
    put_number(out, u64::from(entry.slot))?;
    put_number(out, entry.expires)?;
    put_number(out, u64::from(entry.grants))
}

fn put_taken(out: &mut Vec<u8>, taken: Option<Entry>) -> Result<(), NoMemory> {
    match taken {
        Some(entry) => put_entry(out, entry),
        None => put_part(out, b"none"),
    }
}

fn put_at(out: &mut Vec<u8>, buffer: &Buffer, place: usize) -> Result<(), NoMemory> {
    if place < buffer.len() {
        return put_entry(out, buffer.entry(place));
    }
    put_part(out, b"no place")
}

fn put_found(out: &mut Vec<u8>, buffer: &Buffer, after: &MsgId) -> Result<(), NoMemory> {
    match buffer.look(after) {
        Some(place) => put_number(out, place as u64),
        None => put_part(out, b"none"),
    }
}

/// Counts a grant, where one more can be counted.
fn grant(out: &mut Vec<u8>, buffer: &mut Buffer, place: usize) -> Result<(), NoMemory> {
    if place < buffer.len() && buffer.entry(place).grants < MOST_GRANTS {
        buffer.count_grant(place);
        return put_at(out, buffer, place);
    }
    put_part(out, b"no grant")
}

/// Makes one call, as `look:10:3`.
fn call(out: &mut Vec<u8>, buffer: &mut Buffer, word: &str) -> Result<(), NoMemory> {
    let (call, argument) = word.split_once(':').unwrap_or((word, ""));
    out.extend_from_slice(b" |")?;
    match call {
        "len" => put_number(out, buffer.len() as u64),
        "entry" => put_at(out, buffer, number(argument) as usize),
        "look" => put_found(out, buffer, &id_of(argument)),
        "expire" => put_taken(out, buffer.expire_one(number(argument))),
        "spent" => put_taken(out, buffer.spent_one()),
        "grant" => grant(out, buffer, number(argument) as usize),
        "drop" => put_taken(out, buffer.drop_oldest()),
        _ => put_part(out, b"no call"),
    }
}

/// Makes calls on a buffer of the three entries.
pub(crate) fn answer(alloc: Global, out: &mut Vec<u8>, row: &str) -> Result<(), NoMemory> {
    let mut buffer = filled(alloc)?;
    for word in row.split_ascii_whitespace() {
        call(out, &mut buffer, word)?;
    }
    Ok(())
}

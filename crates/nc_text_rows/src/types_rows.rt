//! Rows of `nc_types`: lists, ids, cursors, names, numbers and quoted texts.
use crate::ident_rows::cursor_of;
use crate::print::{
    bytes_of, cut, id_of, number, put_bytes, put_message_id, put_number, put_optional, put_part,
    put_truth,
};
use nc_types::tags::put_cursor;
use nc_types::text::{
    UnquoteFault, decimal, put_decimal, put_quoted, quote, read_decimal, unquote,
};
use nc_types::{Bytes, ChanName, Cursor, List, MsgId, NoMemory, SeenNames};
use std::alloc::Global;
use std::cmp::Ordering;

/// The list of some numbers, with its length before and behind.
fn list(alloc: Global, out: &mut Vec<u8>, row: &str) -> Result<(), NoMemory> {
    let mut list = List::new(alloc);
    put_number(out, list.len() as u64)?;
    for word in row.split_ascii_whitespace() {
        list.push(word.parse::<u8>().unwrap_or(0))?;
    }
    put_number(out, list.len() as u64)?;
    let copy = list.copied()?;
    for item in copy.as_slice() {
        put_number(out, u64::from(*item))?;
    }
    put_truth(out, copy.into_vec().as_slice() == list.as_slice())
}

fn past(out: &mut Vec<u8>, row: &str) -> Result<(), NoMemory> {
    let (id, after) = cut(row);
    put_truth(out, id_of(id).past(&id_of(after)))
}

/// The id that a cursor has at a place, and the cursor once an id was sent there.
fn put_moved(out: &mut Vec<u8>, cursor: &Cursor, place: usize, id: MsgId) -> Result<(), NoMemory> {
    if place >= cursor.tags.len() {
        return put_part(out, b"no place");
    }
    put_message_id(out, &cursor.at(place))?;
    let moved = cursor.moved(place, id)?;
    out.push(b' ')?;
    put_cursor(out, &moved, None)
}

fn cursor(alloc: Global, out: &mut Vec<u8>, row: &str) -> Result<(), NoMemory> {
    let (text, rest) = cut(row);
    let (place, id) = cut(rest);
    match cursor_of(alloc, text) {
        Ok(cursor) => put_moved(out, &cursor, number(place) as usize, id_of(id)),
        Err(_) => put_part(out, b"no cursor"),
    }
}

fn name_of(alloc: Global, text: &str) -> Result<ChanName, NoMemory> {
    let bytes = List::of(bytes_of(alloc, text)?);
    Ok(ChanName { bytes })
}

/// The owner of a name of so many workers, and whether its copy is the same.
fn owner(alloc: Global, out: &mut Vec<u8>, row: &str) -> Result<(), NoMemory> {
    let (workers, text) = cut(row);
    let workers = workers.parse::<u8>().unwrap_or(0);
    let name = name_of(alloc, text)?;
    if workers > 0 {
        put_number(out, u64::from(name.owner(workers)))?;
    }
    let copy = name.copied()?;
    put_truth(out, copy == name)
}

fn order(alloc: Global, out: &mut Vec<u8>, row: &str) -> Result<(), NoMemory> {
    let (first, second) = cut(row);
    let first = name_of(alloc, first)?;
    let second = name_of(alloc, second)?;
    put_truth(out, first == second)?;
    match first.cmp(&second) {
        Ordering::Less => put_part(out, b"less"),
        Ordering::Equal => put_part(out, b"equal"),
        Ordering::Greater => put_part(out, b"greater"),
    }
}

/// Whether each of some names is among those that were seen.
fn put_among(out: &mut Vec<u8>, seen: &SeenNames, names: &str) -> Result<(), NoMemory> {
    out.push(b' ')?;
    for name in names.split(',') {
        out.push(if seen.has(name.as_bytes()) {
            b'1'
        } else {
            b'0'
        })?;
    }
    Ok(())
}

/// Whether names are seen before each is put in, then once all are, then others; and how many there are.
fn seen(alloc: Global, out: &mut Vec<u8>, row: &str) -> Result<(), NoMemory> {
    let (names, others) = cut(row);
    let mut seen = SeenNames::new(alloc);
    for name in names.split(',') {
        put_among(out, &seen, name)?;
        seen.push(name_of(alloc, name)?)?;
    }
    put_among(out, &seen, names)?;
    put_among(out, &seen, others)?;
    put_number(out, seen.into_list().len() as u64)
}

/// Numbers in decimal: each alone, and one behind the other.
fn decimals(alloc: Global, out: &mut Vec<u8>, row: &str) -> Result<(), NoMemory> {
    let mut text = Vec::new(alloc);
    for word in row.split_ascii_whitespace() {
        put_part(out, decimal(alloc, number(word))?.as_slice())?;
        put_decimal(&mut text, number(word))?;
    }
    put_part(out, &text)
}

fn read_number(alloc: Global, out: &mut Vec<u8>, row: &str) -> Result<(), NoMemory> {
    let (limit, text) = cut(row);
    let text = bytes_of(alloc, text)?;
    put_optional(out, read_decimal(&text, number(limit)))
}

/// Bytes quoted, alone and twice behind each other.
fn quoted(alloc: Global, out: &mut Vec<u8>, row: &str) -> Result<(), NoMemory> {
    let bytes = bytes_of(alloc, row)?;
    put_part(out, quote(alloc, &bytes)?.as_slice())?;
    let mut text = Vec::new(alloc);
    put_quoted(&mut text, b"a")?;
    put_quoted(&mut text, &bytes)?;
    put_part(out, &text)
}

/// The bytes of a quoted text, and whether what is written of them is read as them.
fn put_read(alloc: Global, out: &mut Vec<u8>, bytes: Bytes) -> Result<(), NoMemory> {
    put_bytes(out, bytes.as_slice())?;
    let written = quote(alloc, bytes.as_slice())?;
    match unquote(alloc, written.as_slice()) {
        Ok(again) => put_truth(out, again.as_slice() == bytes.as_slice()),
        Err(_) => put_part(out, b"not read"),
    }
}

fn unquoted(alloc: Global, out: &mut Vec<u8>, row: &str) -> Result<(), NoMemory> {
    let text = bytes_of(alloc, row)?;
    match unquote(alloc, &text) {
        Ok(bytes) => put_read(alloc, out, bytes),
        Err(UnquoteFault::Bad { at }) => {
            put_part(out, b"bad")?;
            put_number(out, at as u64)
        }
        Err(UnquoteFault::NoMemory) => Err(NoMemory),
    }
}

pub(crate) fn answer(alloc: Global, out: &mut Vec<u8>, row: &str) -> Result<(), NoMemory> {
    let (call, rest) = cut(row);
    match call {
        "list" => list(alloc, out, rest),
        "past" => past(out, rest),
        "cursor" => cursor(alloc, out, rest),
        "owner" => owner(alloc, out, rest),
        "order" => order(alloc, out, rest),
        "seen" => seen(alloc, out, rest),
        "decimal" => decimals(alloc, out, rest),
        "read_decimal" => read_number(alloc, out, rest),
        "quote" => quoted(alloc, out, rest),
        "unquote" => unquoted(alloc, out, rest),
        _ => put_part(out, b"no call"),
    }
}

//! Rows of `nc_ident`: ids, tags and dates, written and read.
use crate::print::{bytes_of, cut, number, put_number, put_optional, put_part};
use nc_ident::laws::{
    date_spells_one_second, fixed_date_spells, malformed_at_one_place, spelled_are_tags,
    spelled_date_is_time, text_spells_one, written_is_spelled,
};
use nc_ident::{IdRefusal, read_date, read_id, read_tags, spell_date, spell_id, spell_tags};
use nc_types::{Cursor, GREATEST_TIME, NoMemory};
use std::alloc::Global;

/// The cursor of a text, whatever the number of its tags.
pub(crate) fn cursor_of(alloc: Global, text: &str) -> Result<Cursor, IdRefusal> {
    let tags = text.split(',').count();
    read_id(alloc, text.as_bytes(), tags)
}

/// A cursor as it is written, as a whole and its tags alone.
fn put_spelled(
    alloc: Global,
    out: &mut Vec<u8>,
    cursor: &Cursor,
    sent: &str,
) -> Result<(), NoMemory> {
    let sent = match sent.parse::<usize>() {
        Ok(place) if place < cursor.tags.len() => Some(place),
        _ => None,
    };
    put_part(out, spell_id(alloc, cursor, sent)?.as_slice())?;
    put_part(out, spell_tags(alloc, cursor, sent)?.as_slice())
}

fn spelled(alloc: Global, out: &mut Vec<u8>, row: &str) -> Result<(), NoMemory> {
    let (text, sent) = cut(row);
    match cursor_of(alloc, text) {
        Ok(cursor) => put_spelled(alloc, out, &cursor, sent),
        Err(_) => put_part(out, b"no cursor"),
    }
}

/// A time, and tags as numbers.
fn put_cursor(out: &mut Vec<u8>, cursor: &Cursor) -> Result<(), NoMemory> {
    put_number(out, cursor.time)?;
    for tag in cursor.tags.as_slice() {
        if *tag < 0 {
            put_part(out, b"-1")?;
        } else {
            put_number(out, *tag as u64)?;
        }
    }
    Ok(())
}

fn put_refusal(out: &mut Vec<u8>, refusal: IdRefusal) -> Result<(), NoMemory> {
    match refusal {
        IdRefusal::Malformed { at } => {
            put_part(out, b"malformed")?;
            put_number(out, at as u64)
        }
        IdRefusal::TagCount { found } => {
            put_part(out, b"tags")?;
            put_number(out, found as u64)
        }
        IdRefusal::NoMemory => put_part(out, b"no memory"),
    }
}

fn put_read(out: &mut Vec<u8>, read: Result<Cursor, IdRefusal>) -> Result<(), NoMemory> {
    match read {
        Ok(cursor) => put_cursor(out, &cursor),
        Err(refusal) => put_refusal(out, refusal),
    }
}

fn whole_id(alloc: Global, out: &mut Vec<u8>, row: &str) -> Result<(), NoMemory> {
    let (n, text) = cut(row);
    let text = bytes_of(alloc, text)?;
    put_read(out, read_id(alloc, &text, number(n) as usize))
}

fn whole_tags(alloc: Global, out: &mut Vec<u8>, row: &str) -> Result<(), NoMemory> {
    let (time, rest) = cut(row);
    let (n, text) = cut(rest);
    let text = bytes_of(alloc, text)?;
    let time = number(time).min(GREATEST_TIME);
    put_read(out, read_tags(alloc, time, &text, number(n) as usize))
}

fn laws(out: &mut Vec<u8>) -> Result<(), NoMemory> {
    written_is_spelled();
    text_spells_one();
    malformed_at_one_place();
    spelled_are_tags();
    spelled_date_is_time();
    date_spells_one_second();
    fixed_date_spells();
    put_part(out, b"hold")
}

pub(crate) fn answer(alloc: Global, out: &mut Vec<u8>, row: &str) -> Result<(), NoMemory> {
    let (call, rest) = cut(row);
    match call {
        "spell" => spelled(alloc, out, rest),
        "read_id" => whole_id(alloc, out, rest),
        "read_tags" => whole_tags(alloc, out, rest),
        "read_date" => put_optional(out, read_date(rest.as_bytes())),
        "spell_date" => put_part(out, &spell_date(number(rest).min(GREATEST_TIME))),
        "laws" => laws(out),
        _ => put_part(out, b"no call"),
    }
}

//! The arguments of rows, and the parts of answers.
use nc_types::tags::put_id;
use nc_types::text::{put_decimal, put_quoted, unquote};
use nc_types::{GREATEST_TIME, MsgId, NoMemory};
use std::alloc::Global;

/// The first word of a row, and what stands behind the space that follows it.
pub(crate) fn cut(row: &str) -> (&str, &str) {
    row.split_once(' ').unwrap_or((row, ""))
}

/// A number, which is the greatest where it can't be read.
pub(crate) fn number(text: &str) -> u64 {
    text.parse::<u64>().unwrap_or(u64::MAX)
}

/// The bytes of an argument: as they are, or what they stand for where `~` begins them.
pub(crate) fn bytes_of(alloc: Global, text: &str) -> Result<Vec<u8>, NoMemory> {
    let Some(quoted) = text.strip_prefix("~") else {
        return Ok(Vec::from_slice(alloc, text.as_bytes())?);
    };
    match unquote(alloc, quoted.as_bytes()) {
        Ok(bytes) => Ok(bytes.into_vec()),
        Err(_) => Ok(Vec::new(alloc)),
    }
}

/// The id of a time, a colon and a tag, or that before every message where the text is none.
pub(crate) fn id_of(text: &str) -> MsgId {
    let (time, tag) = text.split_once(':').unwrap_or((text, ""));
    let time = number(time);
    let tag = tag.parse::<i32>().unwrap_or(-2);
    if time <= GREATEST_TIME && tag >= -1 && tag <= 65_535 {
        MsgId { time, tag }
    } else {
        MsgId::NONE
    }
}

/// Puts a part of an answer behind a space.
pub(crate) fn put_part(out: &mut Vec<u8>, part: &[u8]) -> Result<(), NoMemory> {
    out.push(b' ')?;
    out.extend_from_slice(part)?;
    Ok(())
}

pub(crate) fn put_number(out: &mut Vec<u8>, n: u64) -> Result<(), NoMemory> {
    out.push(b' ')?;
    put_decimal(out, n)
}

pub(crate) fn put_optional(out: &mut Vec<u8>, n: Option<u64>) -> Result<(), NoMemory> {
    match n {
        Some(n) => put_number(out, n),
        None => put_part(out, b"none"),
    }
}

pub(crate) fn put_truth(out: &mut Vec<u8>, truth: bool) -> Result<(), NoMemory> {
    put_part(out, if truth { b"yes" } else { b"no" })
}

pub(crate) fn put_bytes(out: &mut Vec<u8>, bytes: &[u8]) -> Result<(), NoMemory> {
    out.push(b' ')?;
    put_quoted(out, bytes)
}

pub(crate) fn put_message_id(out: &mut Vec<u8>, id: &MsgId) -> Result<(), NoMemory> {
    out.push(b' ')?;
    put_id(out, id)
}

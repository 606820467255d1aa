//! Rows of answers, and the texts of what is told of a channel.
ghost use Rattle.std.specs.Prelude.{◌≤◌, IfSome, IsTrue};
ghost use Rattle.nc_http_out.specs.Head.{is_status};

use crate::put::{put, put_spelled};
use crate::text::bytes_of;
use nc_http_out::{message, plain};
use nc_info::{json_text, plain_text};
use nc_types::text::read_decimal;
use nc_types::{Allow, Info, MsgId, NoMemory};
use std::alloc::Global;

/// A word of a row, and what stands behind it.
fn word(row: &str) -> (&str, &str) {
    row.split_once(' ').unwrap_or((row, ""))
}

/// A number of at most `limit`, or 0.
fn number(word: &str, limit: u64) -> u64
    ensures { result ≤ limit }
{
    match read_decimal(word.as_bytes(), limit) {
        Some(number) => number,
        None => 0,
    }
}

fn content_type(word: &str) -> Option<&[u8]> {
    if word == "-" {
        None
    } else {
        Some(word.as_bytes())
    }
}

fn allow(word: &str) -> Allow {
    if word == "subscriber" {
        Allow::Subscriber
    } else if word == "publisher" {
        Allow::Publisher
    } else {
        Allow::Nothing
    }
}

/// A status that answers have.
fn status(word: &str) -> Option<u16>
    ensures { IfSome result (λ status. IsTrue (is_status status)) }
{
    match number(word, 599) {
        200 => Some(200),
        201 => Some(201),
        202 => Some(202),
        400 => Some(400),
        403 => Some(403),
        404 => Some(404),
        405 => Some(405),
        408 => Some(408),
        410 => Some(410),
        413 => Some(413),
        503 => Some(503),
        507 => Some(507),
        _ => None,
    }
}

/// A row `STATUS METHODS TYPE BODY`, with or without `close`.
pub fn put_plain(alloc: Global, row: &str, out: &mut Vec<u8>) -> Result<(), NoMemory> {
    let (status_word, row) = word(row);
    let (methods, row) = word(row);
    let (name, row) = word(row);
    let (body, close) = word(row);
    let allow = allow(methods);
    let Some(status) = status(status_word) else {
        return put(out, b" no status");
    };
    if status == 405 && allow == Allow::Nothing {
        return put(out, b" no methods");
    }
    let body = bytes_of(alloc, body)?;
    let answer = plain(
        alloc,
        status,
        allow,
        content_type(name),
        &body,
        close == "close",
    )?;
    put(out, b" ")?;
    put_spelled(out, answer.as_slice())
}

/// The 29 bytes of a date.
fn date(text: &[u8]) -> [u8; 29] {
    let mut date = [b' '; 29];
    for (to, from) in date.iter_mut().zip(text) {
        *to = *from;
    }
    date
}

/// A row `DATE TAGS TYPE BODY`, with or without `close`.
pub fn put_message(alloc: Global, row: &str, out: &mut Vec<u8>) -> Result<(), NoMemory> {
    let (date_word, row) = word(row);
    let (tags, row) = word(row);
    let (name, row) = word(row);
    let (body, close) = word(row);
    let date = date(&bytes_of(alloc, date_word)?);
    let body = bytes_of(alloc, body)?;
    let answer = message(
        alloc,
        &date,
        tags.as_bytes(),
        content_type(name),
        &body,
        close == "close",
    )?;
    put(out, b" ")?;
    put_spelled(out, answer.as_slice())
}

fn id(word: &str) -> Option<MsgId> {
    let (time, tag) = word.split_once(':')?;
    Some(MsgId {
        time: number(time, 253_402_300_799),
        tag: number(tag, 65_535) as i32,
    })
}

/// A row `MESSAGES MEMBERS ID`.
pub fn put_info(alloc: Global, row: &str, out: &mut Vec<u8>) -> Result<(), NoMemory> {
    let (messages, row) = word(row);
    let (members, last) = word(row);
    let info = Info {
        messages: number(messages, 4_294_967_295) as u32,
        members: number(members, u64::MAX),
        last: id(last),
    };
    put(out, b" ")?;
    put_spelled(out, plain_text(alloc, &info)?.as_slice())?;
    put(out, b" ")?;
    put_spelled(out, json_text(alloc, &info)?.as_slice())
}

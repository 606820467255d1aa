//! Rows of `nc_script`: lines of a script, and what each says or which rule it breaks where.
use crate::print::{bytes_of, cut, number, put_bytes, put_number, put_part};
use nc_script::laws::{lines_are_sure, lines_fit};
use nc_script::{Line, LineFault, place_of, read_line};
use nc_types::tags::put_cursor;
use nc_types::{Bytes, ChanList, ChanName, NoMemory, Start};
use std::alloc::Global;

fn put_fault(out: &mut Vec<u8>, fault: LineFault) -> Result<(), NoMemory> {
    match fault {
        LineFault::Rule { rule, at } => {
            put_part(out, b"rule")?;
            put_number(out, u64::from(rule))?;
            put_number(out, at as u64)
        }
        LineFault::NoMemory => put_part(out, b"no memory"),
    }
}

fn put_clock(out: &mut Vec<u8>, w: u8, t: u64) -> Result<(), NoMemory> {
    put_part(out, b"clock")?;
    put_number(out, u64::from(w))?;
    put_number(out, t)
}

fn put_reap(out: &mut Vec<u8>, w: u8) -> Result<(), NoMemory> {
    put_part(out, b"reap")?;
    put_number(out, u64::from(w))
}

fn put_post(out: &mut Vec<u8>, w: u8, chan: &ChanName, body: &Bytes) -> Result<(), NoMemory> {
    put_part(out, b"post")?;
    put_number(out, u64::from(w))?;
    put_bytes(out, chan.bytes.as_slice())?;
    put_bytes(out, body.as_slice())
}

fn put_start(out: &mut Vec<u8>, start: &Start) -> Result<(), NoMemory> {
    match start {
        Start::Oldest => put_part(out, b"oldest"),
        Start::Newest => put_part(out, b"newest"),
        Start::Given(cursor) => {
            out.push(b' ')?;
            put_cursor(out, cursor, None)
        }
    }
}

fn put_poll(
    out: &mut Vec<u8>,
    w: u8,
    k: u64,
    list: &ChanList,
    start: &Start,
) -> Result<(), NoMemory> {
    put_part(out, b"poll")?;
    put_number(out, u64::from(w))?;
    put_number(out, k)?;
    for name in list.names.as_slice() {
        put_bytes(out, name.bytes.as_slice())?;
    }
    put_start(out, start)
}

/// What a carry or a take says.
fn put_move(out: &mut Vec<u8>, kind: &[u8], w: u8, other: u8) -> Result<(), NoMemory> {
    put_part(out, kind)?;
    put_number(out, u64::from(w))?;
    put_number(out, u64::from(other))
}

fn put_settle(out: &mut Vec<u8>, n: u64) -> Result<(), NoMemory> {
    put_part(out, b"settle")?;
    put_number(out, n)
}

/// A deletion, or a question for information.
fn put_asked(out: &mut Vec<u8>, kind: &[u8], w: u8, chan: &ChanName) -> Result<(), NoMemory> {
    put_part(out, kind)?;
    put_number(out, u64::from(w))?;
    put_bytes(out, chan.bytes.as_slice())
}

fn put_line(out: &mut Vec<u8>, line: &Line) -> Result<(), NoMemory> {
    match line {
        Line::Blank => put_part(out, b"blank"),
        Line::Clock { w, t } => put_clock(out, *w, *t),
        Line::Reap { w } => put_reap(out, *w),
        Line::Post { w, chan, body } => put_post(out, *w, chan, body),
        Line::Poll { w, k, list, start } => put_poll(out, *w, *k, list, start),
        Line::Carry { w, to } => put_move(out, b"carry", *w, *to),
        Line::Take { w, from } => put_move(out, b"take", *w, *from),
        Line::Settle { n } => put_settle(out, *n),
        Line::Remove { w, chan } => put_asked(out, b"drop", *w, chan),
        Line::Inform { w, chan } => put_asked(out, b"info", *w, chan),
    }
}

/// A line for so many workers, as it is read.
fn line(alloc: Global, out: &mut Vec<u8>, row: &str) -> Result<(), NoMemory> {
    let (workers, text) = cut(row);
    let text = bytes_of(alloc, text)?;
    match read_line(alloc, &text, workers.parse::<u8>().unwrap_or(0)) {
        Ok(line) => put_line(out, &line),
        Err(fault) => put_fault(out, fault),
    }
}

/// Where the number of a poll for one worker stands.
fn place(alloc: Global, out: &mut Vec<u8>, text: &str) -> Result<(), NoMemory> {
    let text = text.as_bytes();
    match read_line(alloc, text, 1) {
        Ok(Line::Poll { .. }) => put_number(out, place_of(text, 10) as u64),
        _ => put_part(out, b"no poll"),
    }
}

fn put_kind(out: &mut Vec<u8>, line: &Line) -> Result<(), NoMemory> {
    match line {
        Line::Blank => put_part(out, b"blank"),
        Line::Clock { .. } => put_part(out, b"clock"),
        Line::Reap { .. } => put_part(out, b"reap"),
        Line::Post { .. } => put_part(out, b"post"),
        Line::Poll { .. } => put_part(out, b"poll"),
        Line::Carry { .. } => put_part(out, b"carry"),
        Line::Take { .. } => put_part(out, b"take"),
        Line::Settle { .. } => put_part(out, b"settle"),
        Line::Remove { .. } => put_part(out, b"drop"),
        Line::Inform { .. } => put_part(out, b"info"),
    }
}

/// A text, then `x` so many times, then another text.
fn long_text(alloc: Global, front: &str, count: usize, end: &str) -> Result<Vec<u8>, NoMemory> {
    let mut text = Vec::from_slice(alloc, front.as_bytes())?;
    let middle = vec![in alloc; b'x'; count]?;
    text.extend_from_slice(&middle)?;
    text.extend_from_slice(end.as_bytes())?;
    Ok(text)
}

/// A long line for two workers: `COUNT|FRONT|END`.
fn long_line(alloc: Global, out: &mut Vec<u8>, row: &str) -> Result<(), NoMemory> {
    let (count, rest) = row.split_once('|').unwrap_or((row, ""));
    let (front, end) = rest.split_once('|').unwrap_or((rest, ""));
    let text = long_text(alloc, front, number(count).min(300_000) as usize, end)?;
    match read_line(alloc, &text, 2) {
        Ok(line) => put_kind(out, &line),
        Err(fault) => put_fault(out, fault),
    }
}

pub(crate) fn answer(alloc: Global, out: &mut Vec<u8>, row: &str) -> Result<(), NoMemory> {
    let (call, rest) = cut(row);
    match call {
        "line" => line(alloc, out, rest),
        "place" => place(alloc, out, rest),
        "long" => long_line(alloc, out, rest),
        "laws" => {
            lines_are_sure();
            lines_fit();
            put_part(out, b"hold")
        }
        _ => put_part(out, b"no call"),
    }
}

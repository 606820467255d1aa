//! Rows of bytes, and what a reader makes of them.
use crate::put::{put, put_short, put_spelled};
use crate::text::bytes_of;
use nc_http_in::{Next, Reader};
use nc_types::text::put_decimal;
use nc_types::{Field, NoMemory, Request};
use std::alloc::Global;

fn put_fields(out: &mut Vec<u8>, fields: &[Field]) -> Result<(), NoMemory> {
    if fields.len() > 4 {
        put_decimal(out, fields.len() as u64)?;
        return put(out, b" fields");
    }
    for (place, field) in fields.iter().enumerate() {
        if place > 0 {
            put(out, b"|")?;
        }
        put_short(out, field.name.as_slice())?;
        put(out, b"=")?;
        put_short(out, field.value.as_slice())?;
    }
    Ok(())
}

fn put_target(out: &mut Vec<u8>, request: &Request) -> Result<(), NoMemory> {
    put_short(out, request.path.as_slice())?;
    if let Some(query) = &request.query {
        put(out, b"?")?;
        put_short(out, query.as_slice())?;
    }
    Ok(())
}

fn put_request(out: &mut Vec<u8>, request: &Request) -> Result<(), NoMemory> {
    put(out, b" ")?;
    put_short(out, request.method.as_slice())?;
    put(out, b" ")?;
    put_target(out, request)?;
    put(out, b" ")?;
    put_decimal(out, u64::from(request.minor))?;
    put(out, b" {")?;
    put_fields(out, request.fields.as_slice())?;
    put(out, b"} [")?;
    put_short(out, request.body.as_slice())?;
    put(out, b"];")
}

/// What the bytes that are left are: none of a whole request or a refusal yet, or refused.
#[derive(Clone, Copy)]
enum Left {
    More,
    Bad(u16),
}

/// Feeds a piece, puts each request that is answered then, and tells how the bytes end.
fn put_answered(reader: &mut Reader, piece: &[u8], out: &mut Vec<u8>) -> Result<Left, NoMemory> {
    reader.feed(piece)?;
    for _ in 0..1_000_000 {
        match reader.next()? {
            Next::Request(request) => put_request(out, &request)?,
            Next::More => return Ok(Left::More),
            Next::Bad { status } => return Ok(Left::Bad(status)),
        }
    }
    Ok(Left::More)
}

fn put_left(out: &mut Vec<u8>, left: &Left) -> Result<(), NoMemory> {
    match left {
        Left::More => put(out, b" more"),
        Left::Bad(status) => {
            put(out, b" bad ")?;
            put_decimal(out, u64::from(*status))
        }
    }
}

/// What a reader answers that is fed two pieces.
fn put_both(
    reader: &mut Reader,
    first: &[u8],
    second: &[u8],
    out: &mut Vec<u8>,
) -> Result<(), NoMemory> {
    put_answered(reader, first, out)?;
    let left = put_answered(reader, second, out)?;
    put_left(out, &left)
}

/// What a reader answers that is fed a text byte by byte.
fn put_each(reader: &mut Reader, text: &[u8], out: &mut Vec<u8>) -> Result<(), NoMemory> {
    let mut left = put_answered(reader, b"", out)?;
    for byte in text {
        left = put_answered(reader, &[*byte], out)?;
    }
    put_left(out, &left)
}

/// Puts what a new reader answers that is fed a text in two pieces.
fn put_in_two(
    alloc: Global,
    first: &[u8],
    second: &[u8],
    out: &mut Vec<u8>,
) -> Result<(), NoMemory> {
    let mut reader = Reader::new(alloc);
    put_both(&mut reader, first, second, out)
}

/// Puts what a new reader answers that is fed a text byte by byte.
fn put_by_byte(alloc: Global, text: &[u8], out: &mut Vec<u8>) -> Result<(), NoMemory> {
    let mut reader = Reader::new(alloc);
    put_each(&mut reader, text, out)
}

fn told_in_two(alloc: Global, first: &[u8], second: &[u8]) -> Result<Vec<u8>, NoMemory> {
    let mut out = Vec::new(alloc);
    put_in_two(alloc, first, second, &mut out)?;
    Ok(out)
}

fn told_by_byte(alloc: Global, text: &[u8]) -> Result<Vec<u8>, NoMemory> {
    let mut out = Vec::new(alloc);
    put_by_byte(alloc, text, &mut out)?;
    Ok(out)
}

/// How far the next cut is, of a text of so many bytes that was cut at a place.
fn step(len: usize, place: usize) -> usize {
    if len <= 4_096 || place < 64 || len - 64 < place {
        1
    } else {
        len / 512
    }
}

/// Puts an answer that differs, with the place of its cut.
fn put_if_other(
    out: &mut Vec<u8>,
    wanted: &[u8],
    told: &[u8],
    place: usize,
) -> Result<(), NoMemory> {
    if wanted == told {
        return Ok(());
    }
    put(out, b" BUT ")?;
    put_decimal(out, place as u64)?;
    put(out, told)
}

/// A row `TEXT`.
pub fn put_read(alloc: Global, row: &str, out: &mut Vec<u8>) -> Result<(), NoMemory> {
    let text = bytes_of(alloc, row)?;
    let wanted = told_in_two(alloc, &text, b"")?;
    put(out, &wanted)?;
    put_if_other(out, &wanted, &told_by_byte(alloc, &text)?, 0)?;
    let mut next = 0;
    for place in 0..text.len() {
        if place >= next {
            let (first, second) = text.split_at(place);
            put_if_other(out, &wanted, &told_in_two(alloc, first, second)?, place)?;
            next = place.saturating_add(step(text.len(), place));
        }
    }
    Ok(())
}

fn put_next(out: &mut Vec<u8>, next: &Next) -> Result<(), NoMemory> {
    match next {
        Next::Request(request) => put_request(out, request),
        Next::More => put_left(out, &Left::More),
        Next::Bad { status } => put_left(out, &Left::Bad(*status)),
    }
}

/// How many bytes a reader keeps, which ones it hands out, and how many it keeps then.
fn put_kept(reader: &mut Reader, out: &mut Vec<u8>) -> Result<(), NoMemory> {
    put(out, b" ")?;
    put_decimal(out, reader.kept() as u64)?;
    put(out, b" <")?;
    put_spelled(out, reader.rest().as_slice())?;
    put(out, b"> ")?;
    put_decimal(out, reader.kept() as u64)
}

/// Feeds a text, and puts one answer and what is kept behind it.
fn put_one(reader: &mut Reader, text: &[u8], out: &mut Vec<u8>) -> Result<(), NoMemory> {
    reader.feed(text)?;
    put_next(out, &reader.next()?)?;
    put_kept(reader, out)
}

/// A row `TEXT` whose bytes are handed out behind one answer.
pub fn put_rest(alloc: Global, row: &str, out: &mut Vec<u8>) -> Result<(), NoMemory> {
    let text = bytes_of(alloc, row)?;
    let mut reader = Reader::new(alloc);
    put_one(&mut reader, &text, out)
}

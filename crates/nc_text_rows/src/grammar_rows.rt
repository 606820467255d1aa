//! Rows of `nc_grammar`: whole texts that are read as a value.
use crate::print::{bytes_of, cut, number, put_bytes, put_number, put_part, put_truth};
use nc_grammar::{Fault, Reader, Unread};
use nc_types::{Bytes, NoMemory};
use std::alloc::Global;

/// The words of which one is read.
static WORDS: [&[u8]; 3] = [b"look", b"lookanswer", b"join"];

fn put_unread(out: &mut Vec<u8>, unread: Unread) -> Result<(), NoMemory> {
    match unread {
        Unread::Bad { place } => {
            put_part(out, b"bad")?;
            put_number(out, place as u64)
        }
        Unread::NoMemory => put_part(out, b"no memory"),
    }
}

fn put_value(out: &mut Vec<u8>, read: Result<u64, Unread>) -> Result<(), NoMemory> {
    match read {
        Ok(n) => put_number(out, n),
        Err(unread) => put_unread(out, unread),
    }
}

fn whole_number(alloc: Global, out: &mut Vec<u8>, row: &str) -> Result<(), NoMemory> {
    let (limit, text) = cut(row);
    let text = bytes_of(alloc, text)?;
    let mut reader = Reader::new(&text);
    let outcome = reader.number(number(limit));
    put_value(out, reader.end(&text, outcome))
}

fn whole_digits(alloc: Global, out: &mut Vec<u8>, row: &str) -> Result<(), NoMemory> {
    let (most, rest) = cut(row);
    let (limit, text) = cut(rest);
    let text = bytes_of(alloc, text)?;
    let mut reader = Reader::new(&text);
    let outcome = reader.digits(number(most) as usize, number(limit));
    put_value(out, reader.end(&text, outcome))
}

fn whole_word(alloc: Global, out: &mut Vec<u8>, row: &str) -> Result<(), NoMemory> {
    let text = bytes_of(alloc, row)?;
    let mut reader = Reader::new(&text);
    let outcome = reader.one_of(&WORDS);
    match reader.end(&text, outcome) {
        Ok(place) => put_number(out, place as u64),
        Err(unread) => put_unread(out, unread),
    }
}

fn whole_label(alloc: Global, out: &mut Vec<u8>, row: &str) -> Result<(), NoMemory> {
    let text = bytes_of(alloc, row)?;
    let mut reader = Reader::new(&text);
    let outcome = reader.label(b" w=");
    match reader.end(&text, outcome) {
        Ok(()) => put_part(out, b"read"),
        Err(unread) => put_unread(out, unread),
    }
}

/// A number of one digit that is read.
fn put_digit(out: &mut Vec<u8>, reader: &mut Reader<'_>) -> Result<(), NoMemory> {
    match reader.number(9) {
        Ok(n) => put_number(out, n),
        Err(Fault::Stuck) => put_part(out, b"stuck"),
        Err(Fault::NoMemory) => put_part(out, b"no memory"),
    }
}

/// What is told of a text's first bytes, as a sign and then a number are taken.
fn bytes(out: &mut Vec<u8>, row: &str) -> Result<(), NoMemory> {
    let mut reader = Reader::new(row.as_bytes());
    put_truth(out, reader.begins_with(b'-'))?;
    put_truth(out, reader.begins_with_digit())?;
    put_truth(out, reader.takes(b'-'))?;
    put_truth(out, reader.takes(b'-'))?;
    put_number(out, reader.left() as u64)?;
    put_truth(out, reader.begins_with_digit())?;
    put_truth(out, reader.begins_with(b'-'))?;
    put_digit(out, &mut reader)?;
    put_digit(out, &mut reader)?;
    put_number(out, reader.left() as u64)
}

fn put_quoted(out: &mut Vec<u8>, read: Result<Bytes, Unread>) -> Result<(), NoMemory> {
    match read {
        Ok(bytes) => put_bytes(out, bytes.as_slice()),
        Err(unread) => put_unread(out, unread),
    }
}

fn whole_quoted(alloc: Global, out: &mut Vec<u8>, row: &str) -> Result<(), NoMemory> {
    let text = bytes_of(alloc, row)?;
    let mut reader = Reader::new(&text);
    let outcome = reader.quoted(alloc);
    put_quoted(out, reader.end(&text, outcome))
}

pub(crate) fn answer(alloc: Global, out: &mut Vec<u8>, row: &str) -> Result<(), NoMemory> {
    let (call, rest) = cut(row);
    match call {
        "number" => whole_number(alloc, out, rest),
        "digits" => whole_digits(alloc, out, rest),
        "word" => whole_word(alloc, out, rest),
        "label" => whole_label(alloc, out, rest),
        "bytes" => bytes(out, rest),
        "quoted" => whole_quoted(alloc, out, rest),
        _ => put_part(out, b"no call"),
    }
}

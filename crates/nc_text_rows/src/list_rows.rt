//! Rows of `nc_multi` and `nc_cli`: lists of names, and lists of words.
use crate::print::{cut, number, put_bytes, put_number, put_part};
use nc_cli::{Command, read_words, usage};
use nc_multi::{ListRefusal, list_of};
use nc_types::{Bytes, ChanList, List, NoMemory};
use std::alloc::Global;

/// The names between commas; `-` is for none.
fn names_of(alloc: Global, text: &str) -> Result<Vec<Bytes>, NoMemory> {
    let mut names = Vec::new(alloc);
    if text == "-" {
        return Ok(names);
    }
    for name in text.split(',') {
        names.push(List::of(Vec::from_slice(alloc, name.as_bytes())?))?;
    }
    Ok(names)
}

fn put_names(out: &mut Vec<u8>, list: &ChanList) -> Result<(), NoMemory> {
    put_number(out, list.names.len() as u64)?;
    for name in list.names.as_slice() {
        put_part(out, name.bytes.as_slice())?;
    }
    Ok(())
}

fn put_refusal(out: &mut Vec<u8>, refusal: ListRefusal) -> Result<(), NoMemory> {
    match refusal {
        ListRefusal::Empty { place } => {
            put_part(out, b"empty")?;
            put_number(out, place as u64)
        }
        ListRefusal::TooLong { place, length } => {
            put_part(out, b"long")?;
            put_number(out, place as u64)?;
            put_number(out, length as u64)
        }
        ListRefusal::TooMany { n } => {
            put_part(out, b"many")?;
            put_number(out, n as u64)
        }
        ListRefusal::NoMemory => put_part(out, b"no memory"),
    }
}

/// The list of some names, each of so many bytes at most, and so many at most.
pub(crate) fn answer_list(alloc: Global, out: &mut Vec<u8>, row: &str) -> Result<(), NoMemory> {
    let (longest, rest) = cut(row);
    let (most, names) = cut(rest);
    let names = names_of(alloc, names)?;
    let longest = longest.parse::<u32>().unwrap_or(0);
    match list_of(alloc, &names, longest, number(most) as usize) {
        Ok(list) => put_names(out, &list),
        Err(refusal) => put_refusal(out, refusal),
    }
}

/// The words, each between `"`.
fn words_of(alloc: Global, text: &str) -> Result<Vec<String>, NoMemory> {
    let mut words = Vec::new(alloc);
    let inner = text
        .strip_prefix("\"")
        .and_then(|rest| rest.strip_suffix("\""));
    if let Some(inner) = inner {
        for word in inner.split("\" \"") {
            words.push(String::from_str(alloc, word)?)?;
        }
    }
    Ok(words)
}

fn command(alloc: Global, out: &mut Vec<u8>, text: &str) -> Result<(), NoMemory> {
    let words = words_of(alloc, text)?;
    match read_words(&words) {
        Command::Replay => put_part(out, b"replay"),
        Command::Check => put_part(out, b"check"),
        Command::Load { seed, size } => {
            put_part(out, b"load")?;
            put_number(out, seed)?;
            put_number(out, u64::from(size))
        }
        Command::Usage => put_part(out, b"usage"),
    }
}

/// The command that words are, or the usage.
pub(crate) fn answer_words(alloc: Global, out: &mut Vec<u8>, row: &str) -> Result<(), NoMemory> {
    let (call, rest) = cut(row);
    match call {
        "words" => command(alloc, out, rest),
        "usage" => put_bytes(out, usage()),
        _ => put_part(out, b"no call"),
    }
}

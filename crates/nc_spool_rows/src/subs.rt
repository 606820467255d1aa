//! Calls of subscribers by their numbers.
use crate::row::{names_of, number, put_no_call, word};
use nc_subs::{Mode, Sub, Subs};
use nc_types::NoMemory;
use nc_types::text::put_decimal;
use std::alloc::Global;

/// A number behind a word, or that there is none.
fn put_some(out: &mut Vec<u8>, name: &[u8], some: Option<u64>) -> Result<(), NoMemory> {
    match some {
        Some(k) => {
            out.extend_from_slice(name)?;
            put_decimal(out, k)
        }
        None => Ok(out.extend_from_slice(b" none")?),
    }
}

/// A subscriber of channel `a` that came at a clock, with a time-out.
fn sub_of(alloc: Global, words: &[&str]) -> Result<Option<Sub>, NoMemory> {
    let Some(list) = names_of(alloc, "a")? else {
        return Ok(None);
    };
    let (Some(k), Some(start)) = (number(word(words, 1)), number(word(words, 2))) else {
        return Ok(None);
    };
    let Some(timeout) = number(word(words, 3)) else {
        return Ok(None);
    };
    Ok(Some(Sub {
        k,
        conn: None,
        list,
        mode: Mode::Direct,
        start,
        timeout,
        close: false,
    }))
}

/// `add K CLOCK TIMEOUT`, which keeps a subscriber.
pub(crate) fn add(
    alloc: Global,
    out: &mut Vec<u8>,
    subs: &mut Subs,
    words: &[&str],
) -> Result<(), NoMemory> {
    match sub_of(alloc, words)? {
        Some(sub) => subs.add(sub),
        None => put_no_call(out),
    }
}

/// `get K`, `remove K` and `due NOW`, which name a subscriber or none.
pub(crate) fn ask(
    out: &mut Vec<u8>,
    subs: &mut Subs,
    name: &str,
    words: &[&str],
) -> Result<(), NoMemory> {
    let Some(given) = number(word(words, 1)) else {
        return put_no_call(out);
    };
    match name {
        "get" => put_some(out, b" kept ", subs.get(given).map(|sub| sub.timeout)),
        "remove" => put_some(out, b" removed ", subs.remove(given).map(|sub| sub.timeout)),
        _ => put_some(out, b" due ", subs.due(given)),
    }
}

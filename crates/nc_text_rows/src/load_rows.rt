//! Rows of `nc_load`: the scripts of a seed and a size, and how their lines are read.
use crate::print::{cut, number, put_bytes, put_number, put_part};
use nc_load::make_script;
use nc_script::{LineFault, read_line};
use nc_types::NoMemory;
use std::alloc::Global;
use std::str;

/// How many lines begin with a text.
fn count(script: &str, front: &str) -> u64 {
    let mut n = 0u64;
    for line in script.split('\n') {
        if line.starts_with(front) {
            n = n.saturating_add(1);
        }
    }
    n
}

/// How many lines of each kind a script has: `post`, `poll`, `clock`, `reap`, `drop` and `settle`.
fn put_kinds(out: &mut Vec<u8>, script: &str) -> Result<(), NoMemory> {
    put_number(out, count(script, "post "))?;
    put_number(out, count(script, "poll "))?;
    put_number(out, count(script, "clock "))?;
    put_number(out, count(script, "reap "))?;
    put_number(out, count(script, "drop "))?;
    put_number(out, count(script, "settle "))
}

/// The last lines of a script, as many as are asked for: those behind all others.
fn put_last(out: &mut Vec<u8>, script: &str, lines: u64) -> Result<(), NoMemory> {
    let all = count(script, "").saturating_sub(1);
    let mut n = 0u64;
    for line in script.split('\n') {
        if n >= all.saturating_sub(lines) && n < all {
            put_bytes(out, line.as_bytes())?;
        }
        n = n.saturating_add(1);
    }
    Ok(())
}

/// Of the lines behind the configuration, for four workers: how many are read, how many are no command, how many have
/// too many names, and how many have another fault.
fn put_read(alloc: Global, out: &mut Vec<u8>, script: &str) -> Result<(), NoMemory> {
    let (_, lines) = script.split_once("---\n").unwrap_or(("", script));
    let mut read = 0u64;
    let mut unknown = 0u64;
    let mut long = 0u64;
    let mut other = 0u64;
    for line in lines.split('\n') {
        match read_line(alloc, line.as_bytes(), 4) {
            Ok(_) => read = read.saturating_add(1),
            Err(LineFault::Rule { rule: 2, .. }) => unknown = unknown.saturating_add(1),
            Err(LineFault::Rule { rule: 8, .. }) => long = long.saturating_add(1),
            Err(_) => other = other.saturating_add(1),
        }
    }
    put_number(out, read)?;
    put_number(out, unknown)?;
    put_number(out, long)?;
    put_number(out, other)
}

/// What is told of the script of a seed and a size.
pub(crate) fn answer(alloc: Global, out: &mut Vec<u8>, row: &str) -> Result<(), NoMemory> {
    let (call, rest) = cut(row);
    let (seed, size) = cut(rest);
    let size = number(size).min(65_535) as u32;
    let text = make_script(alloc, number(seed), size)?;
    let script = str::from_utf8(text.as_slice()).unwrap_or("");
    match call {
        "text" => put_bytes(out, text.as_slice()),
        "bytes" => put_number(out, text.len() as u64),
        "kinds" => put_kinds(out, script),
        "last" => put_last(out, script, 3),
        "read" => put_read(alloc, out, script),
        _ => put_part(out, b"no call"),
    }
}

//! The program `nc_journal_rows`: it writes events and reads lines of a journal, row by row.
//!
//! A row on standard input is `read:LINE`, of which the line of the event that is read is printed, or the place where no
//! event's line goes on; or `made:NAME`, of which the text of an event made by hand is. Each row is printed as it came, and
//! then `= ` and what it comes to. The rows of the repository lie in `stdin`, and what they come to, worked out by hand, in
//! `stdout`; the gate compares.
//!
//! Below stand `nc_journal` and `nc_journal_read`, whose calls are shown; `made` has the events made by hand.
#![tactic(auto)]

mod made;

use made::{put_event, put_made};
use nc_journal_read::{Unread, event_of, one_line};
use nc_types::NoMemory;
use nc_types::text::put_decimal;
use std::alloc::Global;
use std::io;
use std::io::{Read, Write};
use std::process::ExitCode;

/// The line of what a line is read as goes behind a text, or the place where no event's line goes on.
fn put_read(alloc: Global, line: &[u8], out: &mut Vec<u8>) -> Result<(), NoMemory> {
    match event_of(alloc, line) {
        Ok(event) => put_event(alloc, event, out),
        Err(Unread::Bad { place }) => {
            out.extend_from_slice(b"bad at ")?;
            put_decimal(out, place as u64)
        }
        Err(Unread::NoMemory) => Err(NoMemory),
    }
}

/// What a row comes to goes behind a text.
fn put_answer(alloc: Global, row: &str, out: &mut Vec<u8>) -> Result<(), NoMemory> {
    if let Some(line) = row.strip_prefix("read:") {
        return put_read(alloc, line.as_bytes(), out);
    }
    if let Some(name) = row.strip_prefix("made:") {
        return put_made(alloc, name, out);
    }
    out.extend_from_slice(b"no such row")?;
    Ok(())
}

/// A row goes behind a text, and what it comes to.
fn put_row(alloc: Global, row: &str, out: &mut Vec<u8>) -> Result<(), NoMemory> {
    out.extend_from_slice(row.as_bytes())?;
    out.extend_from_slice(b"\n= ")?;
    put_answer(alloc, row, out)?;
    out.push(b'\n')?;
    Ok(())
}

/// Runs all rows, and gives what is printed.
fn run_all(alloc: Global, rows: &str) -> Result<Vec<u8>, NoMemory> {
    let mut out = Vec::new(alloc);
    for row in rows.strip_suffix('\n').unwrap_or(rows).split('\n') {
        put_row(alloc, row, &mut out)?;
    }
    Ok(out)
}

fn main(rt: HostRuntime) -> io::Result<ExitCode> {
    one_line();
    let mut rows = String::new(rt.alloc());
    rt.reader().read_to_string(&mut rows)?;
    match run_all(rt.alloc(), rows.as_str()) {
        Ok(out) => {
            io::writer(&rt).write_all(&out)?;
            Ok(ExitCode::from(0))
        }
        Err(NoMemory) => Ok(ExitCode::from(3)),
    }
}

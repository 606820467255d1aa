//! The program `nchan_rows`: it runs rows of nchan's commands over texts in memory, and prints what each comes to.
//!
//! A row on standard input is a line `> WORDS` and the text behind it, up to the next row; behind `>~ WORDS` the text's
//! last LF is left out. The row is printed as it came, then `= STATUS`, and then what the command wrote. Behind `WORDS | `
//! stand words on the run:
//! - `first=N`: a replay is run whose workers draw their numbers from N on, in place of the command;
//! - `read=N`, `write=N`: the read or the write of this number fails, counted from 0;
//! - `sips`: the source gives at most 16 bytes at each read;
//! - `times=N`: the byte before each `%` of the text stands N times;
//! - `sure`: the source and the sink never fail, and nothing is kept of what was written;
//! - `full`: so does the source, and the sink takes nothing; its refusals are printed;
//! - `endless`: the source has no end;
//! - `twos`: no command is run, but five reads into a room of two bytes are made: what they gave is printed, each followed
//!   by `/`, with `!` for one that failed;
//! - `pieces`: no command is run, but each line is written: how many bytes of it were taken is printed, or `!`.
//!
//! Of what was written a byte that stands more than 99 times in a row is printed once, with `*` and how often.
//! The rows of the repository lie in `stdin`, and what they come to in `stdout`; the gate compares. The faults were worked
//! out by hand, and the journals by a second program that follows the rules alone.
//! Below stands `nc_replay`, whose top call is run, and its replay where the numbers begin elsewhere.
#![tactic(auto)]

mod calls;
mod objects;
mod row;

use calls::put_run;
use nc_types::NoMemory;
use row::Row;
use std::alloc::Global;
use std::io;
use std::io::{Read, Write};
use std::process::ExitCode;

/// A line goes behind a text, with its LF.
fn put_line(out: &mut Vec<u8>, line: &[u8]) -> Result<(), NoMemory> {
    out.extend_from_slice(line)?;
    out.push(b'\n')?;
    Ok(())
}

/// Runs all rows, and gives what is printed.
fn run_all(alloc: Global, rows: &str) -> Result<Vec<u8>, NoMemory> {
    let mut out = Vec::new(alloc);
    let mut last = None;
    for line in rows.strip_suffix('\n').unwrap_or(rows).split('\n') {
        if let Some(next) = Row::begun(alloc, line)? {
            if let Some(row) = last {
                put_run(alloc, &row, &mut out)?;
            }
            last = Some(next);
        } else if let Some(row) = &mut last {
            row.push(line)?;
        }
        put_line(&mut out, line.as_bytes())?;
    }
    if let Some(row) = last {
        put_run(alloc, &row, &mut out)?;
    }
    Ok(out)
}

fn main(rt: HostRuntime) -> io::Result<ExitCode> {
    let mut rows = String::new(rt.alloc());
    rt.reader().read_to_string(&mut rows)?;
    match run_all(rt.alloc(), rows.as_str()) {
        Ok(out) => {
            io::writer(&rt).write_all(&out)?;
            Ok(ExitCode::from(0))
        }
        Err(NoMemory) => Ok(ExitCode::from(3)),
    }
}

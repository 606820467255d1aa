//! The program `nc_frame_rows`: rows of openings, frames and clients' bytes, and what each comes to.
//!
//! A row is a line of standard input: a word that says what is called, and the values that it is called on. Bytes are written as
//! pairs of hexadecimal digits; `*N` behind them stands for N times these bytes, and `+` joins. A row is printed as it came,
//! then a line `= ANSWER`; an empty line and one that begins with `#` are printed alone. The rows of the repository lie in
//! `stdin`, and what they come to, worked out by hand from RFC 6455, in `stdout`; the gate compares. A row without memory for
//! its answer ends the program with status 3. Below stand `nc_accept`, `nc_frame` and `nc_ws`, whose calls are shown.
#![tactic(auto)]

mod frames;
mod hex;
mod openings;
mod takes;

use nc_types::NoMemory;
use std::alloc::Global;
use std::io;
use std::io::{Read, Write};
use std::process::ExitCode;

/// What a row comes to.
fn put_answer(alloc: Global, row: &str, out: &mut Vec<u8>) -> Result<(), NoMemory> {
    let (word, rest) = row.split_once(' ').unwrap_or((row, ""));
    if word == "opening" {
        return openings::put_answer(alloc, rest, out);
    }
    if takes::put_row(alloc, word, rest, out)? {
        return Ok(());
    }
    frames::put_row(alloc, word, rest, out)
}

fn is_row(line: &str) -> bool {
    !line.is_empty() && !line.starts_with('#')
}

/// A line, and behind a row what it comes to.
fn put_line(alloc: Global, line: &str, out: &mut Vec<u8>) -> Result<(), NoMemory> {
    out.extend_from_slice(line.as_bytes())?;
    out.push(b'\n')?;
    if is_row(line) {
        out.push(b'=')?;
        put_answer(alloc, line, out)?;
        out.push(b'\n')?;
    }
    Ok(())
}

fn run_all(alloc: Global, lines: &str) -> Result<Vec<u8>, NoMemory> {
    let mut out = Vec::new(alloc);
    for line in lines.split('\n') {
        put_line(alloc, line, &mut out)?;
    }
    Ok(out)
}

fn main(rt: HostRuntime) -> io::Result<ExitCode> {
    let mut text = String::new(rt.alloc());
    rt.reader().read_to_string(&mut text)?;
    let lines = text.strip_suffix('\n').unwrap_or(text.as_str());
    match run_all(rt.alloc(), lines) {
        Ok(out) => {
            io::writer(&rt).write_all(&out)?;
            Ok(ExitCode::from(0))
        }
        Err(NoMemory) => Ok(ExitCode::from(3)),
    }
}

//! The program `nc_http_rows`: rows of bytes and what a reader makes of them, and rows of answers and their bytes.
//!
//! A row is a line of standard input: a word that says what is called, and the values that it is called on. In a text `%r`
//! and `%n` stand for CR and LF, `%` and two digits of base 16 for a byte, and `%{N TEXT}` for a text N times.
//! - `read TEXT`: the bytes are fed whole, byte by byte, and cut into two at each place; where there are more than 4,096, at
//!   the first and last 64 places and some 500 between. What is answered is printed once: each request, and behind the last
//!   one `more` or `bad STATUS`. An answer that differs is printed with the place of its cut.
//! - `rest TEXT`: the bytes are fed, one answer is asked, and how many bytes are kept and which ones are handed out.
//! - `plain STATUS METHODS TYPE BODY` and `message DATE TAGS TYPE BODY`, with `close` behind it where the connection closes
//!   and `-` for no type: the bytes of the answer.
//! - `info MESSAGES MEMBERS ID`, with `-` for no id: the two texts.
//!
//! A request is printed as its method, its target, its minor version, its fields and its body; a text of more than 40 bytes
//! as their number, and more than 4 fields as theirs. A row is printed as it came, then a line `= ANSWER`; an empty line and
//! one that begins with `#` are printed alone. The rows of the repository lie in `stdin`, and what they come to, worked out
//! by hand, in `stdout`; the gate compares. A row without memory for its answer ends the program with status 3.
#![tactic(auto)]

mod answers;
mod put;
mod reads;
mod text;

use crate::put::put;
use nc_types::NoMemory;
use std::alloc::Global;
use std::io;
use std::io::{Read, Write};
use std::process::ExitCode;

/// What a row comes to.
fn put_answer(alloc: Global, row: &str, out: &mut Vec<u8>) -> Result<(), NoMemory> {
    let (word, rest) = row.split_once(' ').unwrap_or((row, ""));
    if word == "read" {
        reads::put_read(alloc, rest, out)
    } else if word == "rest" {
        reads::put_rest(alloc, rest, out)
    } else if word == "plain" {
        answers::put_plain(alloc, rest, out)
    } else if word == "message" {
        answers::put_message(alloc, rest, out)
    } else {
        answers::put_info(alloc, rest, out)
    }
}

fn is_row(line: &str) -> bool {
    !line.is_empty() && !line.starts_with('#')
}

/// A line, and behind a row what it comes to.
fn put_line(alloc: Global, line: &str, out: &mut Vec<u8>) -> Result<(), NoMemory> {
    put(out, line.as_bytes())?;
    put(out, b"\n")?;
    if is_row(line) {
        put(out, b"=")?;
        put_answer(alloc, line, out)?;
        put(out, b"\n")?;
    }
    Ok(())
}

fn run_all(alloc: Global, lines: &str) -> Result<Vec<u8>, NoMemory> {
    let mut out = Vec::new(alloc);
    for line in lines.split('\n') {
        put_line(alloc, line, &mut out)?;
    }
    Ok(out)
}

fn main(rt: HostRuntime) -> io::Result<ExitCode> {
    let mut text = String::new(rt.alloc());
    rt.reader().read_to_string(&mut text)?;
    let lines = text.strip_suffix('\n').unwrap_or(text.as_str());
    match run_all(rt.alloc(), lines) {
        Ok(out) => {
            io::writer(&rt).write_all(&out)?;
            Ok(ExitCode::from(0))
        }
        Err(NoMemory) => Ok(ExitCode::from(3)),
    }
}

//! The program `nc_request_rows`: rows of configurations, openings and routing rules, and what each comes to.
//!
//! A row is a line of standard input: a word that says what is called, and the values that it is called on. `%` and two
//! digits stand for a byte in a text of a configuration. A row is printed as it came, then a line `= ANSWER`; an empty line
//! and one that begins with `#` are printed alone. The rows of the repository lie in `stdin`, and what they come to,
//! worked out by hand, in `stdout`; the gate compares. A row without memory for its answer ends the program with status 3.
//! Below stand `nc_conf_lex`, `nc_conf`, `nc_accept` and `nc_route`, whose calls are shown.
#![tactic(auto)]

mod conf;
mod fields;
mod put;
mod routes;
mod tokens;

use crate::put::put_text;
use nc_types::NoMemory;
use std::alloc::Global;
use std::io;
use std::io::{Read, Write};
use std::process::ExitCode;

/// What a row of configurations comes to, if it is one.
fn put_conf_row(
    alloc: Global,
    word: &str,
    rest: &str,
    out: &mut Vec<u8>,
) -> Result<bool, NoMemory> {
    if word == "tokens" {
        tokens::put_tokens(alloc, rest, out)?;
    } else if word == "twice" {
        tokens::put_twice(alloc, rest, out)?;
    } else if word == "plant" {
        conf::put_planted(alloc, rest, out)?;
    } else if word == "text" {
        conf::put_text_fault(alloc, rest, out)?;
    } else if word == "setting" {
        conf::put_setting(alloc, rest, out)?;
    } else if word == "config" {
        conf::put_config(alloc, rest.as_bytes(), out)?;
    } else if word == "sample" {
        conf::put_config(alloc, conf::SAMPLE.as_bytes(), out)?;
    } else if word == "wide" {
        conf::put_wide(alloc, rest, out)?;
    } else if word == "deep" {
        conf::put_deep(alloc, rest, out)?;
    } else {
        return Ok(false);
    }
    Ok(true)
}

/// What a row comes to.
fn put_answer(alloc: Global, row: &str, out: &mut Vec<u8>) -> Result<(), NoMemory> {
    let (word, rest) = row.split_once(' ').unwrap_or((row, ""));
    if put_conf_row(alloc, word, rest, out)? || fields::put_row(alloc, word, rest, out)? {
        return Ok(());
    }
    routes::put_row(alloc, word, rest, out)
}

fn is_row(line: &str) -> bool {
    !line.is_empty() && !line.starts_with('#')
}

/// A line, and behind a row what it comes to.
fn put_line(alloc: Global, line: &str, out: &mut Vec<u8>) -> Result<(), NoMemory> {
    put_text(out, line.as_bytes(), b"\n")?;
    if is_row(line) {
        put_text(out, b"=", b"")?;
        put_answer(alloc, line, out)?;
        put_text(out, b"\n", b"")?;
    }
    Ok(())
}

fn run_all(alloc: Global, lines: &str) -> Result<Vec<u8>, NoMemory> {
    let mut out = Vec::new(alloc);
    for line in lines.split('\n') {
        put_line(alloc, line, &mut out)?;
    }
    Ok(out)
}

fn main(rt: HostRuntime) -> io::Result<ExitCode> {
    let mut text = String::new(rt.alloc());
    rt.reader().read_to_string(&mut text)?;
    let lines = text.strip_suffix('\n').unwrap_or(text.as_str());
    match run_all(rt.alloc(), lines) {
        Ok(out) => {
            io::writer(&rt).write_all(&out)?;
            Ok(ExitCode::from(0))
        }
        Err(NoMemory) => Ok(ExitCode::from(3)),
    }
}

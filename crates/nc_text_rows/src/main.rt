//! The program `nc_text_rows`: it runs rows of the calls of the crates that stand lowest, and prints each with its answer.
//!
//! A row is a line of standard input: a call's name and its arguments. An argument that begins with `~` is a quoted text
//! and stands for its bytes. The rows of the repository lie in `stdin`, and their answers, worked out by hand, in
//! `stdout`; the gate compares. Each module has the rows of a crate or two; `print` stands below them.
#![tactic(auto)]

mod buffer_rows;
mod grammar_rows;
mod ident_rows;
mod list_rows;
mod load_rows;
mod print;
mod script_rows;
mod types_rows;

use nc_types::NoMemory;
use print::{cut, put_part};
use std::alloc::Global;
use std::io;
use std::io::{Read, Write};
use std::process::ExitCode;

/// Makes one call and puts its answer behind the text.
fn answer(alloc: Global, out: &mut Vec<u8>, row: &str) -> Result<(), NoMemory> {
    let (call, rest) = cut(row);
    match call {
        "types" => types_rows::answer(alloc, out, rest),
        "grammar" => grammar_rows::answer(alloc, out, rest),
        "ident" => ident_rows::answer(alloc, out, rest),
        "multi" => list_rows::answer_list(alloc, out, rest),
        "cli" => list_rows::answer_words(alloc, out, rest),
        "load" => load_rows::answer(alloc, out, rest),
        "script" => script_rows::answer(alloc, out, rest),
        "buffer" => buffer_rows::answer(alloc, out, rest),
        _ => put_part(out, b"no crate"),
    }
}

/// Runs all rows, and gives what is printed.
fn run_all(alloc: Global, rows: &str) -> Result<Vec<u8>, NoMemory> {
    let mut out = Vec::new(alloc);
    for row in rows.split('\n') {
        out.extend_from_slice(row.as_bytes())?;
        out.extend_from_slice(b" =")?;
        answer(alloc, &mut out, row)?;
        out.push(b'\n')?;
    }
    Ok(out)
}

fn main(rt: HostRuntime) -> io::Result<ExitCode> {
    let mut rows = String::new(rt.alloc());
    rt.reader().read_to_string(&mut rows)?;
    let rows = rows.as_str();
    match run_all(rt.alloc(), rows.strip_suffix('\n').unwrap_or(rows)) {
        Ok(out) => {
            io::writer(&rt).write_all(&out)?;
            Ok(ExitCode::from(0))
        }
        Err(NoMemory) => Ok(ExitCode::from(3)),
    }
}

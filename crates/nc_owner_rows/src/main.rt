//! The program `nc_owner_rows`: it makes the steps on standard input, and prints each with what it does.
//!
//! A line that begins with `> ` is a step: `owner SLOTS` begins a run of an owner of channels over plain slots, and the other
//! steps are calls of it, behind which the journal lines of what it did are printed, each alert as the line `made` that tells
//! of it. `slot` is a call of slots, `row` one of a row of slots, and `packet` makes a packet; behind these their answers are
//! printed. Any other line is printed as it came. The rows of the repository lie in `stdin`, and what they come to, worked out
//! by hand, in `stdout`; the gate compares.
//! Below stand `nc_owner` and `nc_reaper`, whose calls are run, `nc_slots` with the slots and `nc_journal` with the lines.
#![tactic(auto)]

mod book;
mod packet_steps;
mod row_steps;
mod run;
mod slot_steps;
mod told;
mod words;

use crate::run::Run;
use nc_types::NoMemory;
use std::io;
use std::io::{Read, Write};
use std::process::ExitCode;

/// Makes the steps of some lines, one after the other.
fn run_all(run: &mut Run, lines: &str) -> Result<(), NoMemory> {
    for line in lines.lines() {
        run.book.print(line.as_bytes())?;
        if let Some(step) = line.strip_prefix("> ") {
            run.step(step)?;
        }
    }
    Ok(())
}

fn main(rt: HostRuntime) -> io::Result<ExitCode> {
    let mut lines = String::new(rt.alloc());
    rt.reader().read_to_string(&mut lines)?;
    let Ok(mut run) = Run::new(rt.alloc()) else {
        return Ok(ExitCode::from(3));
    };
    match run_all(&mut run, lines.as_str()) {
        Ok(()) => {
            io::writer(&rt).write_all(&run.book.text)?;
            Ok(ExitCode::from(0))
        }
        Err(NoMemory) => Ok(ExitCode::from(3)),
    }
}

//! The program `nc_threads_rows`: it makes the steps on standard input over shared slots and rings, and prints each with its answer.
//!
//! A line that begins with `> ` is a step, behind which its answer is printed; any other line is printed as it came.
//! `shared WORDS` and `plain WORDS` make the calls that the words name on new slots of one worker with one slot, and print
//! their answers. `give` has another thread release a hold. `take` takes from a new ring, and `push N` pushes N packets into one.
//! `hold N` has one thread grant N holds and another read and release them, while the first one polls. `carry N` has one thread push N packets that another takes.
//! What is printed is the same however the threads run. The status is 3 where there was no memory.
//! Below stand `nc_shared_slots`, `nc_slots` and `nc_ring`, whose calls are run.
#![tactic(auto)]

mod giving;
mod holding;
mod packets;
mod slot_calls;
mod words;

use crate::words::{number_of, put, put_count};
use nc_types::NoMemory;
use std::alloc::Global;
use std::io;
use std::io::{Read, Write};
use std::process::ExitCode;
use std::sync::Wait;
use std::thread::Threads;

/// Makes a step, and puts its answer behind the text.
fn step<R: Threads + Wait + Sync>(
    rt: &R,
    alloc: Global,
    line: &str,
    out: &mut Vec<u8>,
) -> Result<(), NoMemory> {
    let (kind, words) = line.split_once(' ').unwrap_or((line, ""));
    match kind {
        "shared" => slot_calls::shared_calls(alloc, words, out),
        "plain" => slot_calls::plain_calls(alloc, words, out),
        "take" => packets::take_one(rt, alloc, out),
        "push" => packets::push_some(rt, alloc, number_of(words), out),
        "carry" => packets::carry(rt, alloc, number_of(words), out),
        "give" => giving::give(rt, alloc, out),
        "hold" => holding::hold(rt, alloc, number_of(words), out),
        _ => put(out, b"no such step"),
    }
}

/// Makes the steps of some lines, one after the other.
fn run_all<R: Threads + Wait + Sync>(
    rt: &R,
    alloc: Global,
    lines: &str,
    out: &mut Vec<u8>,
) -> Result<(), NoMemory> {
    for line in lines.lines() {
        put(out, line.as_bytes())?;
        put(out, b"\n")?;
        if let Some(line) = line.strip_prefix("> ") {
            step(rt, alloc, line, out)?;
            put(out, b"\n")?;
        }
    }
    Ok(())
}

fn main(rt: HostRuntime) -> io::Result<ExitCode> {
    let mut lines = String::new(rt.alloc());
    rt.reader().read_to_string(&mut lines)?;
    let mut out = Vec::new(rt.alloc());
    let done = run_all(&rt, rt.alloc(), lines.as_str(), &mut out);
    io::writer(&rt).write_all(&out)?;
    match done {
        Ok(()) => Ok(ExitCode::from(0)),
        Err(NoMemory) => Ok(ExitCode::from(3)),
    }
}

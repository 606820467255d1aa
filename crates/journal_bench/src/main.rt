//! The program `journal_bench`: it cuts, reads or copies the journal on standard input, to be timed.
//!
//! `cut` and `read` print how many lines and bytes there were, `copy` the journal itself.
//! The status is 0 where each line was taken; 1 at the first line that no event has, which is told behind what was
//! copied; 2 where the one word isn't a work; 3 where there was no memory.
#![tactic(auto)]

mod copy;
mod walk;

use std::io::{Read, Write};
use std::process::ExitCode;
use std::{env, io};
use walk::{Stop, Work, walk};

fn work_of(word: &str) -> Option<Work> {
    match word {
        "cut" => Some(Work::Cut),
        "read" => Some(Work::Read),
        "copy" => Some(Work::Copy),
        _ => None,
    }
}

/// The work that the one word of the command line is.
fn work(rt: &HostRuntime) -> io::Result<Option<Work>> {
    let mut words = env::args(rt)?.skip(1);
    let Some(word) = words.next() else {
        return Ok(None);
    };
    Ok(work_of(word.as_str()))
}

/// Does the work, and tells how it ended.
fn run(rt: &HostRuntime, work: Work, journal: &[u8]) -> io::Result<ExitCode> {
    let alloc = rt.alloc();
    let mut out = Vec::new(alloc);
    let mut sink = io::writer(rt);
    let ended = walk(alloc, work, journal, &mut out, &mut sink);
    sink.write_all(&out)?;
    match ended {
        Ok(_) if work == Work::Copy => Ok(ExitCode::from(0)),
        Ok(counts) => {
            println!(rt; "lines={} bytes={}", counts.lines, counts.bytes)?;
            Ok(ExitCode::from(0))
        }
        Err(Stop::Bad { line, at }) => {
            println!(rt; "bad line={line} at={at}")?;
            Ok(ExitCode::from(1))
        }
        Err(Stop::Output) => Ok(ExitCode::from(1)),
        Err(Stop::NoMemory) => Ok(ExitCode::from(3)),
    }
}

fn main(rt: HostRuntime) -> io::Result<ExitCode> {
    let Some(work) = work(&rt)? else {
        println!(rt; "usage: journal_bench cut | read | copy")?;
        return Ok(ExitCode::from(2));
    };
    let mut journal = Vec::new(rt.alloc());
    rt.reader().read_to_end(&mut journal)?;
    run(&rt, work, &journal)
}

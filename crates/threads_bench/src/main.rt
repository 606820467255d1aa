//! The program `threads_bench`: grants that another thread releases, and packets that another thread takes, to be timed.
//!
//! `threads_bench GRANTS PACKETS` grants so many holds of one message, in rounds; in each round a thread of its own then reads
//! and releases them, so that no two threads are at a word at once. Then one thread pushes so many packets into a ring,
//! which another takes. It prints how many holds were released and how many packets came in their place.
//! The status is 0; 2 where the words aren't two numbers; 3 where there was no memory.
#![tactic(auto)]

mod holds;
mod packets;

use nc_types::NoMemory;
use nc_types::text::read_decimal;
use std::process::ExitCode;
use std::sync::Wait;
use std::thread::Threads;
use std::{env, io};

fn number(word: Option<String>) -> Option<u64> {
    read_decimal(word?.as_bytes(), 1_000_000_000)
}

/// The two numbers of the command line.
fn numbers(rt: &HostRuntime) -> io::Result<Option<(u64, u64)>> {
    let mut words = env::args(rt)?.skip(1);
    let grants = number(words.next());
    let packets = number(words.next());
    match (grants, packets) {
        (Some(grants), Some(packets)) => Ok(Some((grants, packets))),
        _ => Ok(None),
    }
}

fn main(rt: HostRuntime) -> io::Result<ExitCode> {
    let Some((grants, packets)) = numbers(&rt)? else {
        println!(rt; "usage: threads_bench GRANTS PACKETS")?;
        return Ok(ExitCode::from(2));
    };
    let (Ok(released), Ok(in_place)) = (
        holds::release_all(&rt, rt.alloc(), grants),
        packets::carry_all(&rt, rt.alloc(), packets),
    ) else {
        return Ok(ExitCode::from(3));
    };
    println!(rt; "released={released} in place={in_place}")?;
    Ok(ExitCode::from(0))
}

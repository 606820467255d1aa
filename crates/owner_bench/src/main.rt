//! The program `owner_bench`: an owner with 4,096 slots stores messages of some channels, to be timed.
//!
//! `owner_bench CHANNELS PUBLISHES` first fills 4,000 slots with messages of one more channel, which stay.
//! Then it publishes so many messages of length 0, on the channels in turn, and prints how many were stored.
//! The status is 0; 2 where the words aren't two numbers, the first of them at least 1; 3 where there was no memory.
#![tactic(auto)]

mod publishes;

use nc_types::text::read_decimal;
use publishes::publish_over;
use std::process::ExitCode;
use std::{env, io};

fn number(word: Option<String>) -> Option<u64> {
    read_decimal(word?.as_bytes(), 1_000_000_000)
}

/// The two numbers of the command line.
fn numbers(rt: &HostRuntime) -> io::Result<Option<(u64, u64)>> {
    let mut words = env::args(rt)?.skip(1);
    let channels = number(words.next());
    let publishes = number(words.next());
    match (channels, publishes) {
        (Some(channels), Some(publishes)) => Ok(Some((channels, publishes))),
        _ => Ok(None),
    }
}

fn main(rt: HostRuntime) -> io::Result<ExitCode> {
    let Some((channels, publishes)) = numbers(&rt)? else {
        println!(rt; "usage: owner_bench CHANNELS PUBLISHES")?;
        return Ok(ExitCode::from(2));
    };
    if channels == 0 {
        println!(rt; "usage: owner_bench CHANNELS PUBLISHES")?;
        return Ok(ExitCode::from(2));
    }
    match publish_over(rt.alloc(), channels, publishes) {
        Ok(stored) => {
            println!(rt; "channels={channels} stored={stored}")?;
            Ok(ExitCode::from(0))
        }
        Err(_) => Ok(ExitCode::from(3)),
    }
}

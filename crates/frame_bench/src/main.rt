//! The program `frame_bench`: framers that each answered a ping and then wait, for their memory to be measured.
//!
//! `frame_bench FRAMERS` makes so many framers, gives each one masked ping, keeps all of them, and prints how many replies there
//! were. The status is 0; 2 where the word isn't a number of at most 1,000,000; 3 where there was no memory or a framer failed.
#![tactic(auto)]

use nc_types::List;
use nc_types::text::read_decimal;
use nc_ws::{FrameFault, Framer, PipeFramer};
use std::alloc::Global;
use std::process::ExitCode;
use std::{env, io};

/// A masked ping of the payload `Hello` (RFC 6455, section 5.7).
const PING: &[u8; 11] = &[
    0x89, 0x85, 0x37, 0xfa, 0x21, 0x3d, 0x7f, 0x9f, 0x4d, 0x51, 0x58,
];

/// A framer that answered a ping, and how many items it gave.
fn idle_framer(alloc: Global) -> Result<(PipeFramer, u64), FrameFault> {
    let mut framer = PipeFramer::begin(alloc, 0)?;
    let items = framer.take(PING)?;
    Ok((framer, items.len() as u64))
}

/// The framers, and how many items they gave.
fn framers(alloc: Global, count: u64) -> Result<(List<PipeFramer>, u64), FrameFault> {
    let mut all = List::new(alloc);
    let mut items = 0u64;
    for _ in 0..count {
        let (framer, gave) = idle_framer(alloc)?;
        all.push(framer)?;
        items = items.saturating_add(gave);
    }
    Ok((all, items))
}

fn count_of(rt: &HostRuntime) -> io::Result<Option<u64>> {
    let word = env::args(rt)?.nth(1);
    Ok(word.and_then(|word| read_decimal(word.as_bytes(), 1_000_000)))
}

fn main(rt: HostRuntime) -> io::Result<ExitCode> {
    let Some(count) = count_of(&rt)? else {
        println!(rt; "usage: frame_bench FRAMERS")?;
        return Ok(ExitCode::from(2));
    };
    match framers(rt.alloc(), count) {
        Ok((all, items)) => {
            let made = all.len();
            println!(rt; "framers={made} replies={items}")?;
            Ok(ExitCode::from(0))
        }
        Err(_) => Ok(ExitCode::from(3)),
    }
}

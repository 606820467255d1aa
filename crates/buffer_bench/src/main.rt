//! The program `buffer_bench`: calls on large and small buffers, counted, to be timed.
//!
//! `buffer_bench WORK SIZE ROUNDS ..` does one work after the other, each three words. In each of its rounds a buffer is filled
//! with SIZE entries, and then worked on:
//!
//! - `store` does no more;
//! - `look` looks 2 * SIZE times past an id, in no order;
//! - `follow` looks 2 * SIZE times too, each time past the id that the look before found;
//! - `expire` takes out each entry at the second at which it expires, in another order than that of the ids;
//! - `age` does so where entries expire in the order in which they were stored;
//! - `drop` takes out the oldest until none is left.
//!
//! It prints of each work how many of its calls answered as they should.
//! The status is 0; 2 where the words are no such works; 3 where there was no memory.
#![tactic(auto)]

mod fill;
mod work;

use fill::MOST_ENTRIES;
use nc_types::NoMemory;
use nc_types::text::read_decimal;
use std::alloc::Global;
use std::process::ExitCode;
use std::{env, io};
use work::{Work, right_calls};

/// What three words of the command line ask for.
#[derive(Clone, Copy)]
struct Task {
    work: Work,
    size: u64,
    rounds: u64,
}

fn work_of(word: &String) -> Option<Work> {
    match word.as_bytes() {
        b"store" => Some(Work::Store),
        b"look" => Some(Work::Look),
        b"follow" => Some(Work::Follow),
        b"expire" => Some(Work::Expire),
        b"age" => Some(Work::Age),
        b"drop" => Some(Work::Drop),
        _ => None,
    }
}

fn number_of(word: &String) -> Option<u64> {
    read_decimal(word.as_bytes(), MOST_ENTRIES)
}

fn task_of(words: &[String]) -> Option<Task> {
    match words {
        [work, size, rounds] => Some(Task {
            work: work_of(work)?,
            size: number_of(size)?,
            rounds: number_of(rounds)?,
        }),
        _ => None,
    }
}

/// How many calls of all rounds answered as they should.
fn right_in_all(alloc: Global, task: &Task) -> Result<u64, NoMemory> {
    let mut right = 0u64;
    for _ in 0..task.rounds {
        right = right.saturating_add(right_calls(alloc, task.work, task.size)?);
    }
    Ok(right)
}

fn main(rt: HostRuntime) -> io::Result<ExitCode> {
    let mut words = Vec::new(rt.alloc());
    for word in env::args(&rt)?.skip(1) {
        words.push(word)?;
    }
    for three in words.chunks(3) {
        let Some(task) = task_of(three) else {
            println!(rt;
                "usage: buffer_bench store | look | follow | expire | age | drop SIZE ROUNDS .."
            )?;
            return Ok(ExitCode::from(2));
        };
        let Ok(right) = right_in_all(rt.alloc(), &task) else {
            return Ok(ExitCode::from(3));
        };
        println!(rt;
            "{} size={} rounds={} right={right}",
            task.work.word(),
            task.size,
            task.rounds
        )?;
    }
    Ok(ExitCode::from(0))
}

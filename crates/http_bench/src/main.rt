//! The program `http_bench`: requests read, answers written and readers kept, to be timed and their memory measured.
//!
//! - `http_bench read BODY REQUESTS PIECE TIMES`: so many requests with bodies of so many bytes, one behind the other, are fed
//!   so many times, in pieces of so many bytes; after each piece all that can be answered is asked for. It prints how many
//!   requests were read, and how many bytes their bodies have.
//! - `http_bench answer BODY TIMES`: an answer with a body of so many bytes is written so many times. It prints how many were
//!   written, and how many bytes they have.
//! - `http_bench keep CHUNKS READERS`: so many readers each read one request and then wait; where the number of chunks isn't 0
//!   they wait in the middle of another one, behind so many chunks of one byte with lines of 1,024 bytes. It prints how many
//!   readers are kept, and how many requests they read.
//!
//! The status is 0; 2 where the words are none of these; 3 where there was no memory.
#![tactic(auto)]

mod task;
mod texts;
mod work;

use crate::task::{Task, read_task};
use crate::work::{Done, answer_often, keep_many, read_often};
use nc_types::NoMemory;
use std::alloc::Global;
use std::process::ExitCode;
use std::{env, io};

fn do_task(alloc: Global, task: &Task) -> Result<Done, NoMemory> {
    match task {
        Task::Read {
            body,
            requests,
            piece,
            times,
        } => read_often(alloc, *body, *requests, *piece, *times),
        Task::Answer { body, times } => answer_often(alloc, *body, *times),
        Task::Keep { chunks, readers } => keep_many(alloc, *chunks, *readers),
    }
}

fn main(rt: HostRuntime) -> io::Result<ExitCode> {
    let mut words = Vec::new(rt.alloc());
    for word in env::args(&rt)?.skip(1) {
        words.push(word)?;
    }
    let Some(task) = read_task(&words) else {
        println!(rt;
            "usage: http_bench read BODY REQUESTS PIECE TIMES | answer BODY TIMES | keep CHUNKS READERS"
        )?;
        return Ok(ExitCode::from(2));
    };
    match do_task(rt.alloc(), &task) {
        Ok(Done { count, bytes }) => {
            println!(rt; "count={count} bytes={bytes}")?;
            Ok(ExitCode::from(0))
        }
        Err(_) => Ok(ExitCode::from(3)),
    }
}

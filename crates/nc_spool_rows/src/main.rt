//! The program `nc_spool_rows`: it makes the calls on standard input, run by run, and prints what each leads to.
//!
//! A row is a line of calls with ` | ` between them, made of new spools of two workers whose numbers begin with 0; a line
//! that begins with `#` names the rows behind it. Channels that begin with `a` or `c` are owned by worker 1, with `b` by 0.
//! The calls are these, where `GRANT` is `OWNER.G`, an id is `TIME:TAG` and a cursor `TIME:TAGS`:
//! - `come K LIST START [once]`, with `oldest`, `newest` or a cursor as the start
//! - `answer NO Q FLOOR [ID GRANT]`, `edge NO Q FLOOR ID`
//! - `notice CHANNEL ID GRANT`, `gone CHANNEL [K,K..]`, `go K`
//! - `idle`, which releases one hold, and `hold GRANT`
//! - `add K CLOCK TIMEOUT`, `get K`, `remove K` and `due NOW`, of subscribers by their numbers
//!
//! A row is printed as it came, and behind it a line for each call with its facts. The rows of the repository lie in
//! `stdin`, and what they come to, worked out by hand, in `stdout`. Below stand `nc_spool` and the readers of ids and lists.
#![tactic(auto)]

mod facts;
mod row;
mod subs;

use crate::row::Row;
use nc_types::NoMemory;
use std::alloc::Global;
use std::io;
use std::io::{Read, Write};
use std::process::ExitCode;

/// Runs all rows, and gives what is printed.
fn run_all(alloc: Global, rows: &str) -> Result<Vec<u8>, NoMemory> {
    let mut out = Vec::new(alloc);
    for line in rows.split('\n') {
        out.extend_from_slice(line.as_bytes())?;
        out.push(b'\n')?;
        if !line.starts_with('#') {
            Row::run(alloc, &mut out, line)?;
        }
    }
    Ok(out)
}

fn main(rt: HostRuntime) -> io::Result<ExitCode> {
    let mut text = String::new(rt.alloc());
    rt.reader().read_to_string(&mut text)?;
    let rows = text.as_str();
    match run_all(rt.alloc(), rows.strip_suffix('\n').unwrap_or(rows)) {
        Ok(out) => {
            io::writer(&rt).write_all(&out)?;
            Ok(ExitCode::from(0))
        }
        Err(NoMemory) => Ok(ExitCode::from(3)),
    }
}

//! The program `nchan`: it hands the words, standard input and standard output to the top call.
//!
//! Everything that matters is in `nc_replay` below; here stand the real source and sink, one run over them, and `main`.
#![tactic(auto)]

mod run;
mod standard;

use run::run;
use standard::{StdSink, StdSource};
use std::process::ExitCode;
use std::{env, io};

fn main(rt: HostRuntime) -> io::Result<ExitCode> {
    let alloc = rt.alloc();
    let mut words = Vec::new(alloc);
    for word in env::args(&rt)?.skip(1) {
        words.push(word)?;
    }
    let mut input = StdSource::new(rt.reader());
    let mut out = StdSink::new(io::writer(&rt));
    Ok(ExitCode::from(run(alloc, &words, &mut input, &mut out)))
}

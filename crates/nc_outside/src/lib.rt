//! What a program is handed from outside: sources of bytes and sinks for them, and such objects in memory.
//!
//! The types of `nc_types` stand below. What reads and writes stands above and takes any [`Source`] and [`Sink`];
//! the objects in memory take the place of the system's in tests.
#![tactic(auto)]

mod calls;
pub mod laws;
mod mem_sink;
mod mem_source;
mod sink;
mod source;
mod sure;
mod trace;
mod unread;

pub use mem_sink::MemSink;
pub use mem_source::MemSource;
pub use sink::Sink;
pub use source::{Failed, Source};
pub use sure::{SureSink, SureSource};
pub use trace::Trace;

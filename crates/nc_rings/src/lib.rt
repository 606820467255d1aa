//! Rings: the packets on their way between workers that one thread runs.
//!
//! What a worker made is carried into the ring to its receiver, which takes it there: in order, and at most 256 at once.
//! A cluster of several workers stands above; rings that threads share are another crate's. Below is `nc_alert`.
#![tactic(auto)]

mod ring;
mod rings;
mod row;

pub use ring::{RING_SIZE, Ring};
pub use rings::Rings;
pub use row::RingRow;

//! Settling: a machine makes moves, turn by turn in rounds that go on for ever, until it is idle.
//!
//! The machine is a trait, so that nothing here knows of workers and packets; the cluster of several workers stands above.
//! What settling is, how many moves come before a worn one, and the order of turns are defined in `specs/`.
//! Below is `nc_types`.
#![tactic(auto)]

mod machine;
mod rounds;

pub use machine::{Machine, Turn};
pub use rounds::{Settled, settle};

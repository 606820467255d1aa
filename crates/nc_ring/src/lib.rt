//! Rings: what carries packets from one worker to another, or to itself, in order.
//!
//! A ring has room for 256 packets and two ends, which two threads may have. [`RingTx`] pushes and [`RingRx`] takes.
//! Between any two steps of any threads the packets that were taken and then those that the ring holds are those that
//! were pushed, and each is as its receiver may count on: `laws` has what this rule means, `specs/` the rule.
//! Below are `nc_alert` with the packets and `crossbeam_queue` with the queue.
#![tactic(auto)]

mod ends;
pub mod laws;
mod rule;
mod rx;
mod tx;
mod view;

pub use ends::pair;
pub use rx::RingRx;
pub use tx::{Full, RingTx};
pub use view::Route;

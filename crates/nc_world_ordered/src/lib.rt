//! The order of a subscriber's events in the steps of its worker: it is subscribed, started, sent messages and ended in this
//! order, and one that a message ends is ended directly behind it. There is no code here: each function does nothing, and its
//! contract is a law.
//!
//! Below is what the calls of spools write (`nc_world_told`). The rule itself stands in `nc_journal/specs/Standing`.
#![tactic(auto)]

pub mod steps;

//! The rule of shared slots: what the words that threads share tell of slots and holds, between any two steps.
//!
//! Each slot has a word: 1 where its owner's view calls it buffered, and 2 more for each live hold. `steps` has the
//! kinds of steps that change or read a word, and each of them keeps the rule, whatever other threads do before and
//! behind it. `laws` has what the rule means: a slot that its owner calls unused, or knows to be clear, has no live hold.
//! Below are `nc_slots` with a slot as its owner knows it and `atomic_table` with words and the seats of threads.
//! Handles of workers stand above. The rule and the steps are defined in `specs/`.
#![tactic(auto)]

pub mod laws;
mod rule;
pub mod steps;
mod view;

pub use rule::{Pass, SlotRule, Words};
pub use view::{Seen, Size};

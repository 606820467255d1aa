//! Shared slots: the slots of all workers, where each worker's thread has a handle of its own.
//!
//! [`SharedSlots`] are the handle of one worker: it puts, grants, retires and polls slots of its own worker, and gives
//! any hold of the set back. A message lies in an `Arc`, and each slot has a word that counts its holds, which all
//! handles share. No call waits for another thread, and there is no lock: the words change by the steps of
//! `nc_slot_rule` alone, whose rule holds between any two steps of any threads.
//! Below are `nc_slots` with the trait and `nc_slot_rule` with the rule and the steps.
#![tactic(auto)]

mod handle;
mod hold;
pub mod laws;
mod naming;
mod opened;
mod row;

pub use handle::SharedSlots;
pub use hold::SharedHold;
pub use naming::Naming;
pub use opened::{NewSlots, shared};

//! The facts of a call of spools as events on a history, and what a spool that decides writes: it sends lawfully, and leaves
//! each subscriber standing at the key of its spool. There is no code here: each function does nothing, and its contract is a law.
//!
//! Below are what places rest on (`nc_rests`), lawful sends (`nc_sends`) and a worker's deeds (`nc_worker_state`).
#![tactic(auto)]

pub mod deciding;
pub mod writing;

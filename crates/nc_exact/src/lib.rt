//! Exact ids: each cursor that a subscriber has come to resumes exactly there. And what an induction over histories carries of
//! sends and starts, with all that it then promises. There is no code here: each function does nothing, and its contract is a law.
//!
//! Below are lawful sends (`nc_sends`) and lawful starts (`nc_starts`).
#![tactic(auto)]

pub mod carrying;
pub mod resuming;

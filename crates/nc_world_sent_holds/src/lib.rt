//! The slot rule over the histories of reached worlds: who is sent a message holds it. There is no code here: each function does
//! nothing, and its contract is a law.
//!
//! Below are the other points of the rule (`nc_world_slots`, `nc_world_released`), and how messages come to spools (`nc_spool_brought`).
#![tactic(auto)]

pub mod holding;

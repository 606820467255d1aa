//! Sends and starts of reached worlds: each is lawful, whatever is stored later, and each cursor is exact. There is no code here:
//! each function does nothing, and its contract is a law.
//!
//! Below are the places of reached worlds (`nc_world_places`), their standing rule, and what follows of a history in which each
//! event is good when it is made (`nc_exact`).
#![tactic(auto)]

pub mod sends;

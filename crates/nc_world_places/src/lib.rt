//! The places of spools in reached worlds: each rests on a look of its channel's owner, or has asked for one. There is no code
//! here: each function does nothing, and its contract is a law.
//!
//! Below are the calls of spools on a history (`nc_world_calls`) and the laws of reached worlds.
#![tactic(auto)]

pub mod owners;
pub mod places;

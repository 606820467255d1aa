//! The edges that starts of reached worlds await: none was answered. There is no code here: each function does nothing, and its
//! contract is a law.
//!
//! Below are edges and their answers (`nc_world_edges`).
#![tactic(auto)]

pub mod awaiting;

//! The edges that workers of reached worlds ask for: their owners tell each behind the fence that it was asked with, and answer it.
//! There is no code here: each function does nothing, and its contract is a law.
//!
//! Below are the laws of reached worlds, the numbers that workers draw (`nc_world_asks`) and what a start knows of its edges
//! (`nc_starts`).
#![tactic(auto)]

pub mod edges;

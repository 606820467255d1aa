//! The looks that workers of reached worlds ask for: each is pending to the owner, or the owner answered it. There is no code here:
//! each function does nothing, and its contract is a law.
//!
//! Below are the laws of reached worlds, and how requests are counted there (`nc_world_requests`).
#![tactic(auto)]

pub mod looks;

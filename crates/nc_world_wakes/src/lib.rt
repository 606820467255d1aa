//! No wake is lost in reached worlds: where a worker knows of nothing at a channel, a notice is on its way to it, or the owner has
//! marked it there and buffers nothing for it; and where it found a message, it keeps the message's hold. There is no code here: each
//! function does nothing, and its contract is a law.
//!
//! Below are the places of reached worlds (`nc_world_places`).
#![tactic(auto)]

pub mod found;
pub mod wakes;

//! What workers of reached worlds ask their channels' owners: each number of a look or an edge is drawn once, and owners make
//! only the looks that were asked for. There is no code here: each function does nothing, and its contract is a law.
//!
//! Below are the laws of spools and of reached worlds.
#![tactic(auto)]

pub mod asks;

//! Holds at quiet: when no alert is pending, every hold was released. There is no code here: the function does nothing, and its
//! contract is a law.
//!
//! Below are holds at rest (`nc_world_unheld`) and awaited looks (`nc_world_awaits`).
#![tactic(auto)]

pub mod releasing;

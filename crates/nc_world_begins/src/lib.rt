//! Subscribers that begin behind the newest messages, in reached worlds: each knows its edges until it is started, is started as
//! they say, and is started at the latest where no alert is pending. There is no code here: each function does nothing, and its
//! contract is a law.
//!
//! Below are edges and their answers (`nc_world_edges`, `nc_world_edge_awaits`), the stages of subscribers (`nc_world_members`)
//! and what edges say of a start (`nc_starts`).
#![tactic(auto)]

pub mod begins;
pub mod calls;

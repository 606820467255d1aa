//! Who stands with a channel, and what the calls of spools tell the channel's owner of it; and the stages of subscribers, by the
//! facts that calls tell. There is no code here: each function does nothing, and its contract is a law.
//!
//! Below are `nc_spool` and its laws.
#![tactic(auto)]

pub mod members;
pub mod stages;

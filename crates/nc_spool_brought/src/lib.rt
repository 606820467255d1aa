//! What spools find and send was brought to them by an answer or a notice of its channel, with its grant.
//!
//! There is no code here: each function does nothing, and its contract is a law. Below are the laws of spools.
#![tactic(auto)]

pub mod brought;

//! What holds of the histories of reached worlds at quiet: where it is told that no alert is pending.
//!
//! Each law is a public function with an empty body.
#![tactic(auto)]

pub mod members;

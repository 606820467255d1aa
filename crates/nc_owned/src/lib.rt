//! What a worker does as the owner of channels, told by its scribe.
//!
//! Each function is one of the owner's steps, whose events and alerts are told in one weave, and each keeps that the owner fits
//! its slots. A worker stands above. Below are the owner of `nc_owner`, the reaper and the scribe of `nc_scribe`.
//! A step is the owner's part of the pure step of `nc_worker_state`, by some answers of its polls.
#![tactic(auto)]

mod owning;

pub use owning::{delete, edge, inform, join, look, part, publish, sweep};

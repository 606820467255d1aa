//! The turns of a round of settling, by their numbers, and the lines that meet a worn worker.
//!
//! `nc_settle` settles any machine whose turns have numbers, and the pure world of `nc_world` by lists of moves. Here a number
//! becomes a move, the laws say that both settle alike, and `specs/` defines where a line meets a worn worker and what it leaves.
//! The cluster of several workers stands above.
#![tactic(auto)]

pub mod laws;
mod transfer;

pub use transfer::{Transfer, transfer_at};

//! The headline of several workers: the history of each reached world is lawful, so the journal of each script is, whatever order its
//! lines let packets go in.
//!
//! Here the rules of a lawful history are joined, each of which is a law of the crates below.
#![tactic(auto)]

pub mod lawful;

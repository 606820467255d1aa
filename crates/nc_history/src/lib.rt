//! What a history of several workers tells beside the rules of `nc_journal`: the packets between two workers, and the steps
//! that the events are made of.
//!
//! Here stand definitions alone, and the laws that follow from them. They are about printed events, and nothing here names
//! what a worker keeps. Below is `nc_journal`; the pure world and its laws stand above.
#![tactic(auto)]

pub mod packets;

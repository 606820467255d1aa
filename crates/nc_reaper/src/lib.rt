//! The reaper: what has expired leaves all channels of an owner, channels of which nothing is left go, and what nobody holds is used again.
//!
//! A worker stands above, which reaps from time to time. Below is the owner of `nc_owner`, with its slots, alerts and events.
//! What a reap does is a fold over the channels in `specs/`.
#![tactic(auto)]

mod sweep;

pub use sweep::reap;

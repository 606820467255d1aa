//! The calls of a worker's spools on a history: the answers to a look and to an edge, a notice, a channel that is gone, and a subscriber that comes. Each writes only
//! lawful sends, leaves each subscriber standing at the key of its spool, and keeps what is so of each place. There is no code
//! here: each function does nothing, and its contract is a law.
//!
//! Below is what a call writes (`nc_world_told`); above, the worlds whose workers make these calls.
#![tactic(auto)]

pub mod answers;
pub mod arrivals;
pub mod edges;
pub mod losses;
pub mod notices;

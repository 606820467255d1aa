//! Several workers as one: the lines of a script are made, and what happened is told.
//!
//! [`Cluster`] makes one line after the other on the floor of `nc_floor`, below: what it tells and leaves is what the pure world
//! of `nc_world` tells and leaves, up to the first move that would call on a worn worker. It tells which lines don't fit those before
//! them, and after lines that fit it stands for them: what it told is their journal.
//! A replay of a script stands above.
#![tactic(auto)]

mod cluster;
mod fitting;
mod playing;

pub use cluster::{Cluster, MoveRefusal};
pub use playing::play;

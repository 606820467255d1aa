//! The floor on which several workers work: they with their slots, the rings between them, and what was told of the line at hand.
//!
//! [`Floor`] makes the moves of the pure world of `nc_world`: something from outside is handed to a worker, a packet is carried,
//! a packet is taken, and at most so many carries and takes are made in rounds. A worker is whatever is a [`Hand`], which
//! handles what comes as the pure step does. A cluster, which makes the lines of a script, stands above.
#![tactic(auto)]

mod act;
mod floor;
mod hand;
mod moves;
mod opening;
mod tries;

pub use floor::{Floor, sets_up};
pub use hand::Hand;
pub use moves::{count, handle, rest};
pub use opening::{finish, is_quiet, open};
pub use tries::{carry, is_worn, settle, take};

//! What a worker keeps of its subscribers: those who wait at one list and cursor wait together, in one spool.
//!
//! A [`Spool`] has a place for each channel of its list, which is asked, has nothing, or has found a message, and the
//! subscribers that stand behind its cursor. A [`Shelf`] keeps spools in order, [`Kept`] the holds of the messages that were
//! found, and [`Starts`] those who begin behind the newest message. Here stand these and what is read off them: what a
//! place makes of what it hears ([`learned`], [`notice_says`], [`gone_says`]) and what a spool does then ([`choose`]).
//! The steps themselves stand above, in `nc_spool`. Below is `nc_types`.
#![tactic(auto)]

mod choice;
mod edge;
mod hear;
mod kept;
mod key;
mod place;
mod shelf;
mod spool;
mod starting;
mod uses;
mod workers;

pub use choice::{Choice, Find, choose};
pub use edge::{Edge, is_any_awaited, is_any_behind, newest_cursor};
pub use hear::{Heard, News, gone_says, learned, notice_says};
pub use kept::{Held, Kept};
pub use key::{SpoolKey, copied_cursor, copied_names};
pub use place::{Place, Quiet};
pub use shelf::Shelf;
pub use spool::{Reader, Spool};
pub use starting::{Starting, Starts};
pub use workers::Workers;

//! Slots: where an owner's messages lie, and who holds them.
//!
//! An owner puts a message into a slot and grants holds of it to workers, which release them.
//! A slot is used again once nobody holds its message. Owners and workers stand above, and see only [`Slots`].
//! [`PlainSlots`] are slots of one thread; slots that threads share stand in a crate above, over [`SlotRow`] too.
//! Below is `nc_types`. What each call does to a row of slots is defined in `specs/`.
#![tactic(auto)]

mod plain;
mod row;
mod slot;
mod slots;

pub use plain::{PlainHold, PlainSlots};
pub use row::SlotRow;
pub use slot::{MOST_GRANTS, Slot};
pub use slots::{Polled, PutRefusal, Slots};

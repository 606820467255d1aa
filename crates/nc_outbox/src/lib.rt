//! Outboxes: the packets that a worker made for each of the others and that weren't carried to them yet.
//!
//! [`Outboxes`] numbers what a worker makes, receiver by receiver, and keeps it in order until it is carried. What is put
//! there is told as an event, whose line is the alert's own. A worker stands above; alerts lie below, in `nc_alert`.
//! What a box has, and what the journal tells of an alert, is defined in `specs/` and in `nc_owner`.
#![tactic(auto)]

mod line;
mod outbox;
mod outboxes;

pub use line::{kind_of, line_of};
pub use outbox::Outbox;
pub use outboxes::Outboxes;

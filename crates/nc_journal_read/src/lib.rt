//! The journal read back: the event that has a line, or the place of the first byte that no event's line has there.
//!
//! Below stand `nc_grammar`, the readers of texts, and `nc_journal`, whose lines are read. No server reads a journal: this is
//! for programs that judge one.
#![tactic(auto)]

mod alert_reading;
mod connection_reading;
mod field_reading;
mod owner_reading;
mod place_reading;
mod reading;
mod stored_reading;
mod subscriber_reading;
mod value_reading;
mod word_reading;
mod worker_reading;

pub use nc_grammar::Unread;
pub use reading::{event_of, one_line};

//! The journal: what the workers did, event by event, and the text of it.
//!
//! Below stand `nc_types` and `nc_journal_field`. Every crate that makes or checks events stands on this one; `nc_journal_read` reads lines back.
//! What a lawful journal is, is defined in its `specs/`, by what stands before each event.
#![tactic(auto)]

mod alert;
mod alert_lines;
mod connection_lines;
mod event;
mod laws;
mod line;
mod owner_lines;
mod subscriber_lines;
mod word;
mod words;
mod worker_lines;

pub use alert::AlertLine;
pub use event::{Event, EventList};
pub use laws::{holds_are_granted, ids_rise, last_naming_tells, text_grows, unended_is_refused};
pub use line::{line_of, put_lines};
pub use word::{Act, AlertKind, EndedCause, LeftCause, ModeLine, RemovedCause, ShutCause};

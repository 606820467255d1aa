//! The buffer of one channel: its kept messages in ascending order of id.
//!
//! A buffer knows of each message only where it lies, when it expires and how often it was granted.
//! The owner of the channel stands above. Below are the ids of `nc_types`.
//! What each call takes out, finds or changes is defined in `specs/`, on the plain list of entries.
#![tactic(auto)]

mod buffer;
mod entry;
pub mod laws;
mod mark;
mod tree;

pub use buffer::Buffer;
pub use entry::{Entry, MOST_GRANTS};

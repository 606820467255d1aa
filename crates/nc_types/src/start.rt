//! Where a subscriber begins.
use crate::cursor::Cursor;

/// Where a subscriber begins in its channels.
#[derive(Drop)]
pub enum Start {
    /// Before the oldest message that is kept.
    Oldest,
    /// Behind the newest message.
    Newest,
    /// Behind the given ids.
    Given(Cursor),
}

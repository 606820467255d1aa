//! A member of a channel.

/// A subscriber: the worker that it is of, and its number there. They are ordered by worker, then by number.
#[derive(Clone, Copy, PartialEq, Eq, PartialOrd, Ord)]
pub struct Member {
    pub from: u8,
    pub k: u64,
}

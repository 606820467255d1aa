//! The words that stand in an event for what was asked, how and why.
/// What a request asks for.
#[derive(Clone, Copy, Debug, PartialEq, Eq)]
pub enum Act {
    Publish,
    Info,
    Delete,
    LongPoll,
    Socket,
    Refuse,
    Bad,
}

/// How a subscriber is served.
#[derive(Clone, Copy, Debug, PartialEq, Eq)]
pub enum ModeLine {
    Direct,
    LongPoll,
    Socket,
    Meta,
}

/// Why a message leaves its buffer.
#[derive(Clone, Copy, Debug, PartialEq, Eq)]
pub enum LeftCause {
    Length,
    Expired,
    Deleted,
    Spent,
}

/// Why a channel is removed.
#[derive(Clone, Copy, Debug, PartialEq, Eq)]
pub enum RemovedCause {
    Deleted,
    Reaped,
}

/// Why a subscriber ends.
#[derive(Clone, Copy, Debug, PartialEq, Eq)]
pub enum EndedCause {
    Answered,
    Timeout,
    Deleted,
    Peer,
    Closed,
    Frame,
}

/// Why a connection is shut.
#[derive(Clone, Copy, Debug, PartialEq, Eq)]
pub enum ShutCause {
    Asked,
    Refused,
    Peer,
    Closed,
    Deleted,
    Timeout,
    Frame,
}

/// The kind of an alert, without its fields.
#[derive(Clone, Copy, Debug, PartialEq, Eq)]
pub enum AlertKind {
    Publish,
    PubAnswer,
    Look,
    LookAnswer,
    Notice,
    Edge,
    EdgeAnswer,
    Join,
    Part,
    Delete,
    DelAnswer,
    Gone,
    Info,
    InfoAnswer,
}

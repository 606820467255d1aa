//! What is told of a channel.
use crate::id::MsgId;

/// How many messages a channel keeps and members it has, and the id of its last message, if any.
#[derive(Clone, Copy)]
pub struct Info {
    pub messages: u32,
    pub members: u64,
    pub last: Option<MsgId>,
}

/// How many slots an owner has that are buffered, and how many more that somebody holds, where these are all.
#[derive(Clone, Copy)]
pub struct FullLine {
    pub buffered: u64,
    pub held: u64,
}

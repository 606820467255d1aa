//! What a call of spools tells.
use crate::ask::Asking;
use nc_types::{ChanName, Cursor, List, MsgId};

/// A message that is sent to subscriber `k`: its place in the list, its channel and id, the cursor that it moves the
/// subscriber to, the number of the look that each place rests on, and the grant `g` of its owner that holds it.
#[derive(Drop)]
pub struct Sending {
    pub k: u64,
    pub place: usize,
    pub chan: ChanName,
    pub id: MsgId,
    pub cursor: Cursor,
    pub looks: List<u64>,
    pub owner: u8,
    pub g: u64,
}

/// One thing that a call leads to.
#[derive(Drop)]
pub enum Fact {
    /// Something is asked of an owner.
    Out(Asking),
    /// A subscriber is started behind a cursor.
    Started { k: u64, cursor: Cursor },
    /// A subscriber is sent a message.
    Sent(Sending),
    /// A subscriber is ended, by the deletion of a channel or else.
    Ended { k: u64, deleted: bool },
}

//! The kinds of alerts.
use nc_types::{Bytes, ChanName, FullLine, Info, List, MsgId};

/// A hold of a message, granted by the message's owner: the message's id, the owner's number of the grant,
/// and the slot in which the message lies.
#[derive(Drop)]
pub struct Grant<H> {
    pub id: MsgId,
    pub g: u64,
    pub slot: u32,
    pub hold: H,
}

/// What one worker tells another. The fields stand as in a journal's `made` line (docs/JOURNAL.md).
///
/// `r` numbers a request and `no` a question of the worker that asks, and `k` is one of its subscribers.
#[derive(Drop)]
pub enum Alert<H> {
    /// A message for the channel's owner. It keeps at most `len` messages, and this one for `timeout` seconds, where 0 is for ever.
    Publish {
        r: u64,
        c: ChanName,
        len: u32,
        timeout: u64,
        ct: Option<Bytes>,
        body: Bytes,
    },
    /// What became of a message.
    PubAnswer {
        r: u64,
        status: u16,
        info: Option<Info>,
        full: Option<FullLine>,
    },
    /// Asks for the first message past an id. The owner's floor is at least `fence` then.
    Look {
        no: u64,
        c: ChanName,
        after: MsgId,
        fence: u64,
    },
    /// The message that was found, if there is one, with the owner's number `q` of the look and its floor.
    LookAnswer {
        no: u64,
        q: u64,
        floor: u64,
        found: Option<Grant<H>>,
    },
    /// A message was stored in a channel where the worker had looked in vain.
    Notice {
        c: ChanName,
        found: Grant<H>,
    },
    /// Asks for the channel's last id. The owner's floor is at least `fence` then.
    Edge {
        no: u64,
        k: u64,
        c: ChanName,
        fence: u64,
    },
    /// The channel's last id, with the owner's number `q` of the question and its floor.
    EdgeAnswer {
        no: u64,
        q: u64,
        floor: u64,
        last: MsgId,
    },
    /// A subscriber becomes a member of the channel.
    Join {
        c: ChanName,
        k: u64,
    },
    /// A subscriber is a member no longer.
    Part {
        c: ChanName,
        k: u64,
    },
    /// Asks that the channel be removed.
    Delete {
        r: u64,
        c: ChanName,
    },
    /// Whether there was such a channel, and what it had.
    DelAnswer {
        r: u64,
        status: u16,
        info: Option<Info>,
    },
    /// The channel was removed, and these subscribers of the receiver were its members.
    Gone {
        c: ChanName,
        subs: List<u64>,
    },
    /// Asks what the channel has.
    Info {
        r: u64,
        c: ChanName,
    },
    /// Whether there is such a channel, and what it has.
    InfoAnswer {
        r: u64,
        status: u16,
        info: Option<Info>,
    },
}

//! What the lines of a script say, once they are read.
use nc_types::{Bytes, ChanList, ChanName, Start};

/// A line of a script. `w` is the number of the worker that it goes to.
#[derive(Drop)]
pub enum Line {
    /// An empty line or a comment, which does nothing.
    Blank,
    /// The worker's clock reads `t` seconds since 1970.
    Clock {
        w: u8,
        t: u64,
    },
    /// The worker goes over its channels: expired messages leave, and a channel that keeps nothing and nobody goes.
    Reap {
        w: u8,
    },
    /// A message without a content type is published on a channel.
    Post {
        w: u8,
        chan: ChanName,
        body: Bytes,
    },
    /// A direct subscriber, number `k`, of the channels of a list.
    Poll {
        w: u8,
        k: u64,
        list: ChanList,
        start: Start,
    },
    /// The first packet of the worker's outbox to another goes into the ring, if there is one and the ring has room.
    Carry {
        w: u8,
        to: u8,
    },
    /// The worker takes the first packet of the ring from another and handles it, if there is one.
    Take {
        w: u8,
        from: u8,
    },
    /// At most `n` carries and takes that do something, in rounds.
    Settle {
        n: u64,
    },
    /// A channel is to be deleted.
    Remove {
        w: u8,
        chan: ChanName,
    },
    /// Information on a channel is asked for.
    Inform {
        w: u8,
        chan: ChanName,
    },
}

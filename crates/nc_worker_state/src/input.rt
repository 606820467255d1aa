//! What comes to a worker.
use nc_alert::Packet;
use nc_types::{Bytes, ChanList, ChanName, Start};

/// What comes to a worker: a packet of a worker, or something from outside.
#[derive(Drop)]
pub enum Input<H> {
    /// A packet that worker `from` made for it.
    Packet(Packet<H>),
    /// Its clock reads so many seconds since 1970, at most 4,102,444,800.
    Clock(u64),
    /// It goes over the channels that it owns: what has expired leaves, a channel that keeps nothing and nobody goes, and slots that nobody holds are used again.
    Reap,
    /// A message is published directly, without a content type.
    Post {
        chan: ChanName,
        body: Bytes,
    },
    /// A direct subscriber comes, whose number is new.
    Poll {
        k: u64,
        list: ChanList,
        start: Start,
    },
    /// A channel is to be deleted, which is asked for directly.
    Remove {
        chan: ChanName,
    },
    /// Information on a channel is asked for directly.
    Inform {
        chan: ChanName,
    },
}

//! What is decided of a request.
use nc_accept::Opening;
use nc_types::{Allow, Bytes, ChanList, ChanName, Settings, Start};

/// What a request asks for, or that it is refused.
#[derive(Drop)]
pub enum Decision {
    /// The body is published to a channel.
    Publish {
        chan: ChanName,
        settings: Settings,
        /// The value of the request's first `Content-Type`.
        content_type: Option<Bytes>,
        body: Bytes,
    },
    /// Information on a channel is asked for.
    Inform {
        chan: ChanName,
    },
    /// A channel is deleted.
    Delete {
        chan: ChanName,
    },
    /// The next message of some channels is asked for, behind the start.
    LongPoll {
        list: ChanList,
        start: Start,
        settings: Settings,
    },
    /// All messages of some channels are asked for, behind the start.
    Socket {
        list: ChanList,
        start: Start,
        settings: Settings,
        opening: Opening,
    },
    /// The request breaks a rule, 1 to 14: the number of the first, the status of the answer, and the methods that it names.
    Refuse {
        status: u16,
        rule: u8,
        allow: Allow,
    },
}

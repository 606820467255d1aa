//! The events of a journal, one variant for each kind of line.
use crate::alert::AlertLine;
use crate::word::{Act, AlertKind, EndedCause, LeftCause, ModeLine, RemovedCause, ShutCause};
use nc_types::{Bytes, ChanList, ChanName, Cursor, Info, List, MsgId, Start};

/// Something that a worker did, with the fields of its line in their order (docs/JOURNAL.md).
///
/// `w` is the worker that did it.
#[derive(Drop)]
pub enum Event {
    Clock {
        w: u64,
        t: u64,
    },
    Opened {
        w: u64,
        conn: u64,
    },
    Got {
        w: u64,
        conn: u64,
        bytes: Bytes,
    },
    Asked {
        w: u64,
        r: u64,
        conn: Option<u64>,
        act: Act,
        list: Option<ChanList>,
        status: u64,
        rule: u64,
    },
    Answered {
        w: u64,
        r: u64,
        conn: Option<u64>,
        status: u64,
        info: Option<Info>,
        json: bool,
        close: bool,
    },
    Subscribed {
        w: u64,
        k: u64,
        conn: Option<u64>,
        list: ChanList,
        mode: ModeLine,
        start: Start,
        timeout: u64,
        close: bool,
    },
    Started {
        w: u64,
        k: u64,
        cur: Cursor,
    },
    Joined {
        w: u64,
        c: ChanName,
        from: u64,
        k: u64,
    },
    Parted {
        w: u64,
        c: ChanName,
        from: u64,
        k: u64,
    },
    Raised {
        w: u64,
        t: u64,
    },
    Stored {
        w: u64,
        c: ChanName,
        id: MsgId,
        slot: u64,
        len: u64,
        exp: u64,
        kept: bool,
        members: u64,
        from: u64,
        r: u64,
        ct: Option<Bytes>,
        body: Bytes,
    },
    Left {
        w: u64,
        c: ChanName,
        id: MsgId,
        slot: u64,
        cause: LeftCause,
    },
    Looked {
        w: u64,
        q: u64,
        from: u64,
        no: u64,
        c: ChanName,
        after: MsgId,
        floor: u64,
        found: Option<MsgId>,
    },
    Edged {
        w: u64,
        q: u64,
        from: u64,
        no: u64,
        k: u64,
        c: ChanName,
        floor: u64,
        last: MsgId,
    },
    Granted {
        w: u64,
        g: u64,
        slot: u64,
        to: u64,
    },
    Released {
        w: u64,
        owner: u64,
        g: u64,
        slot: u64,
    },
    Freed {
        w: u64,
        slot: u64,
    },
    Removed {
        w: u64,
        c: ChanName,
        last: MsgId,
        cause: RemovedCause,
    },
    Sent {
        w: u64,
        k: u64,
        i: u64,
        c: ChanName,
        id: MsgId,
        cur: Cursor,
        looks: List<u64>,
    },
    Ended {
        w: u64,
        k: u64,
        cause: EndedCause,
    },
    Replied {
        w: u64,
        conn: u64,
        bytes: Bytes,
    },
    Wrote {
        w: u64,
        conn: u64,
        bytes: Bytes,
    },
    Shut {
        w: u64,
        conn: u64,
        cause: ShutCause,
    },
    Made {
        w: u64,
        to: u64,
        n: u64,
        a: AlertLine,
    },
    Took {
        w: u64,
        from: u64,
        n: u64,
        a: AlertKind,
    },
    Pending {
        n: u64,
    },
    Quiet,
}

/// The events of a step, in the order in which they happened.
#[derive(Drop)]
pub struct EventList {
    pub events: List<Event>,
}

//! What an event tells of an alert that one worker makes for another.
use nc_types::{Bytes, ChanName, FullLine, Info, List, MsgId};

/// An alert with the fields that its `made` line has, in their order (docs/JOURNAL.md).
#[derive(Drop)]
pub enum AlertLine {
    Publish {
        r: u64,
        c: ChanName,
        len: u64,
        timeout: u64,
        ct: Option<Bytes>,
        body: Bytes,
    },
    PubAnswer {
        r: u64,
        status: u64,
        info: Option<Info>,
        full: Option<FullLine>,
    },
    Look {
        no: u64,
        c: ChanName,
        after: MsgId,
        fence: u64,
    },
    LookAnswer {
        no: u64,
        q: u64,
        floor: u64,
        found: Option<MsgId>,
        g: Option<u64>,
        slot: Option<u64>,
    },
    Notice {
        c: ChanName,
        id: MsgId,
        g: u64,
        slot: u64,
    },
    Edge {
        no: u64,
        k: u64,
        c: ChanName,
        fence: u64,
    },
    EdgeAnswer {
        no: u64,
        q: u64,
        floor: u64,
        last: MsgId,
    },
    Join {
        c: ChanName,
        k: u64,
    },
    Part {
        c: ChanName,
        k: u64,
    },
    Delete {
        r: u64,
        c: ChanName,
    },
    DelAnswer {
        r: u64,
        status: u64,
        info: Option<Info>,
    },
    Gone {
        c: ChanName,
        subs: List<u64>,
    },
    Info {
        r: u64,
        c: ChanName,
    },
    InfoAnswer {
        r: u64,
        status: u64,
        info: Option<Info>,
    },
}

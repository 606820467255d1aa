//! What an owner keeps of one channel.
ghost use Rattle.std.specs.Prelude.{◌≡◌, [], IfOk, None};
ghost use Rattle.nc_owner.specs.Publish.{info_of, stored_status};
ghost use Rattle.nc_owner.specs.Remove.{is_idle};

use crate::backlog::Backlog;
use crate::members::Members;
use nc_types::{Info, List, MsgId, NoMemory};
use std::alloc::Global;

/// A channel: its messages, the id of the last one that was stored since the channel was made, its members,
/// and the workers that are to be told of the next message, in ascending order.
#[derive(Drop)]
pub struct Channel {
    pub backlog: Backlog,
    pub latest: Option<MsgId>,
    pub members: Members,
    pub marks: List<u8>,
}

impl Channel {
    /// A channel that comes to exist, after the owner's spent id.
    pub fn new(alloc: Global, spent: MsgId) -> Channel
        ensures { result ≡ record { backlog = record { last = spent; entries = [] }; latest = None; members = []; marks = [] } }
    {
        Channel {
            backlog: Backlog::new(alloc, spent),
            latest: None,
            members: Members::new(alloc),
            marks: List::new(alloc),
        }
    }

    /// What is told of the channel.
    pub fn info(&self) -> Result<Info, NoMemory>
        ensures { IfOk result (λ info. info ≡ info_of self.now) }
    {
        let Ok(messages) = u32::try_from(self.backlog.len()) else {
            return Err(NoMemory);
        };
        Ok(Info {
            messages,
            members: self.members.len() as u64,
            last: self.latest,
        })
    }

    /// The status of the answer to a message that is stored here.
    pub(crate) fn stored_status(&self) -> u16
        ensures { result ≡ stored_status self.now }
    {
        if self.members.len() == 0 { 202 } else { 201 }
    }

    /// Whether it keeps no message and has no member.
    pub(crate) fn is_idle(&self) -> bool
        ensures { result ≡ is_idle self.now }
    {
        self.backlog.len() == 0 && self.members.len() == 0
    }
}

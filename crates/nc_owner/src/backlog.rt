//! What is kept of the messages of one channel: the buffered ones and the last id.
ghost use Rattle.std.specs.Prelude.{◌≡◌, ◌<◌, ◌++◌, ◌∷◌, [], length, find, IfSome, OnErr, OnOk, Some};
ghost use Rattle.std.specs.List.{slice_get};
ghost use Rattle.nc_types.specs.Id.{IsPast};
ghost use Rattle.nc_buffer.specs.Buffer.{LosesTaken, is_expired, is_spent, first_past, without_first, oldest, without_oldest, with_grant};

use nc_buffer::{Buffer, Entry};
use nc_types::{MsgId, NoMemory};
use std::alloc::Global;
use std::marker::Model;

/// The last id of a channel and its buffered messages, in ascending order of id. None of them is past the last id.
#[derive(Drop)]
pub struct Backlog {
    last: MsgId,
    buffer: Buffer,
}

impl Model for Backlog {
    ghost use Rattle.nc_owner.specs.Backlog.{BacklogAt, IsBacklog};

    ghost Value = { BacklogAt };

    ghost view = { λ b. record { last = b.last; entries = b.buffer } };

    ghost invariant = { λ b. IsBacklog b.last b.buffer };
}

impl Backlog {
    /// No messages, after a last id.
    pub fn new(alloc: Global, last: MsgId) -> Backlog
        ensures { result ≡ record { last = last; entries = [] } }
    {
        Backlog {
            last,
            buffer: Buffer::new(alloc),
        }
    }

    /// The last id.
    pub fn last(&self) -> MsgId
        ensures { result ≡ self.now.last }
    {
        self.last
    }

    /// How many messages are buffered.
    pub fn len(&self) -> usize
        ensures { result ≡ length self.now.entries }
    {
        self.buffer.len()
    }

    /// The entry at a place, counted from the oldest, which is at 0.
    pub fn entry(&self, place: usize) -> Entry
        requires { place < length self.now.entries }
        ensures { slice_get self.now.entries place ≡ Some result }
    {
        self.buffer.entry(place)
    }

    /// The place of the oldest entry past an id, if there is one.
    pub fn first_past(&self, after: &MsgId) -> Option<usize>
        ensures place { result ≡ first_past after.now self.now.entries }
        ensures within { IfSome result (λ place. place < length self.now.entries) }
    {
        self.buffer.look(after)
    }

    /// Counts one grant more of the entry at a place.
    pub fn count_grant(&mut self, place: usize)
        requires place { place < length self.old.entries }
        requires unspent { IfSome (slice_get self.old.entries place) (λ e. e.grants < 4294967295) }
        ensures { self.new ≡ record self.old { entries = with_grant place self.old.entries } }
    {
        self.buffer.count_grant(place);
    }

    /// Takes out the oldest entry that expires at or before the second `now`, if there is one.
    pub fn expire_one(&mut self, now: u64) -> Option<Entry>
        ensures taken { result ≡ find (is_expired now) self.old.entries }
        ensures kept { self.new ≡ record self.old { entries = without_first (is_expired now) self.old.entries } }
        ensures fewer { LosesTaken result self.old.entries self.new.entries }
    {
        self.buffer.expire_one(now)
    }

    /// Takes out the oldest entry that can't be granted once more, if there is one.
    pub fn spent_one(&mut self) -> Option<Entry>
        ensures taken { result ≡ find is_spent self.old.entries }
        ensures kept { self.new ≡ record self.old { entries = without_first is_spent self.old.entries } }
        ensures fewer { LosesTaken result self.old.entries self.new.entries }
    {
        self.buffer.spent_one()
    }

    /// Takes out the oldest entry, if there is one.
    pub fn drop_oldest(&mut self) -> Option<Entry>
        ensures taken { result ≡ oldest self.old.entries }
        ensures kept { self.new ≡ record self.old { entries = without_oldest self.old.entries } }
        ensures fewer { LosesTaken result self.old.entries self.new.entries }
    {
        self.buffer.drop_oldest()
    }

    /// Puts an entry behind the others. Its id is the last one from then on. Without memory nothing changes.
    pub fn store(&mut self, entry: Entry) -> Result<(), NoMemory>
        requires { IsPast entry.id self.old.last }
        ensures err { OnErr result (self.new ≡ self.old) }
        ensures ok { OnOk result (self.new ≡ record { last = entry.id; entries = self.old.entries ++ entry ∷ [] }) }
    {
        let id = entry.id;
        self.buffer.store(entry)?;
        self.last = id;
        Ok(())
    }

    /// The last id is that of a message that isn't buffered.
    pub fn pass(&mut self, id: MsgId)
        requires { IsPast id self.old.last }
        ensures { self.new ≡ record self.old { last = id } }
    {
        self.last = id;
    }
}

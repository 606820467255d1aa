//! Keys: the list and the cursor that the subscribers of one spool have in common.
ghost use Rattle.std.specs.Prelude.{◌≡◌, ◌<◌, ◌+◌, ◌++◌, length, IfOk, IfSome};
ghost use Rattle.nc_types.specs.Cursor.{cursor_id};
ghost use Rattle.nc_spool_state.specs.Key.{key_cmp, place_of, id_at, is_in};

use nc_types::{ChanList, ChanName, Cursor, List, MsgId, NoMemory};
use std::alloc::Global;
use std::cmp::Ordering;
use std::marker::Model;

/// A list of channels, and a cursor with a tag for each of them.
#[derive(Drop)]
pub struct SpoolKey {
    pub list: ChanList,
    pub cursor: Cursor,
}

impl Model for SpoolKey {
    ghost use Rattle.std.specs.Prelude.{◌≡◌, length};
    ghost use Rattle.nc_spool_state.specs.Key.{KeyAt};

    ghost Value = { KeyAt };

    ghost view = { λ k. record { list = k.list; cursor = k.cursor } };

    ghost invariant = { λ k. length k.cursor.tags ≡ length k.list };
}

/// The names of a list once more.
pub fn copied_names(alloc: Global, names: &List<ChanName>) -> Result<List<ChanName>, NoMemory>
    ensures { IfOk result (λ copy. copy ≡ names.now) }
{
    let mut copy = List::new(alloc);
    for name in names.as_slice() {
        copy.push(name.copied()?)?;
    }
    Ok(copy)
}

/// A cursor once more.
pub fn copied_cursor(cursor: &Cursor) -> Result<Cursor, NoMemory>
    ensures { IfOk result (λ copy. copy ≡ cursor.now) }
{
    let tags = cursor.tags.copied()?;
    Ok(Cursor {
        time: cursor.time,
        tags,
    })
}

impl SpoolKey {
    /// How two keys are ordered: by their lists, name by name, then by time, then by tags.
    pub fn compare(&self, other: &SpoolKey) -> Ordering
        ensures { result ≡ key_cmp self.now other.now }
    {
        let names = self.list.names.as_slice().cmp(other.list.names.as_slice());
        let times = self.cursor.time.cmp(&other.cursor.time);
        let tags = self
            .cursor
            .tags
            .as_slice()
            .cmp(other.cursor.tags.as_slice());
        names.then(times.then(tags))
    }

    /// The place of a channel in the list, if it is there.
    pub fn place_of(&self, chan: &ChanName) -> Option<usize>
        ensures place { result ≡ place_of chan.now self.now.list }
        ensures within { IfSome result (λ place. place < length self.now.list) }
    {
        self.list
            .names
            .as_slice()
            .iter()
            .position(|name| *name == *chan)
    }

    /// Whether a channel is in the list.
    pub fn has(&self, chan: &ChanName) -> bool
        ensures { result ≡ is_in chan.now self.now.list }
    {
        self.list.names.as_slice().iter().any(|name| *name == *chan)
    }

    /// The id that the cursor has at a place.
    pub fn at(&self, place: usize) -> MsgId
        requires { place < length self.now.list }
        ensures { result ≡ id_at self.now place }
    {
        self.cursor.at(place)
    }

    /// The same key once more.
    pub fn copied(&self, alloc: Global) -> Result<SpoolKey, NoMemory>
        ensures { IfOk result (λ copy. copy ≡ self.now) }
    {
        let names = copied_names(alloc, &self.list.names)?;
        let cursor = copied_cursor(&self.cursor)?;
        Ok(SpoolKey {
            list: ChanList { names },
            cursor,
        })
    }
}

//! Buffers, which contracts see as lists of entries, the oldest first.
ghost use Rattle.std.specs.Prelude.{◌≡◌, ◌<◌, ◌∷◌, ◌++◌, [], length, find, IfSome, IsSome, OnOk, OnErr, Some, None, false, slice_index_or};
ghost use Rattle.std.specs.List.{position, slice_get};
ghost use Rattle.nc_buffer.specs.Buffer.{IsRising, StaysRising, IsPastAll, LosesTaken, is_expired, is_spent, first_past, without_first, oldest, without_oldest, with_grant};
ghost use Rattle.nc_buffer.specs.Marks.{no_mark, passes, tells, kept, Shows};

use crate::entry::Entry;
use crate::mark::{Mark, Sought};
use crate::tree::Tree;
use nc_types::{MsgId, NoMemory};
use std::alloc::Global;
use std::marker::Model;

/// The kept messages of one channel, in ascending order of id.
///
/// Only [`store`](Buffer::store) takes memory. Each entry lies in a slot, behind the slots of the older ones, and stays there;
/// the slot of one that was taken out is left until there is no room behind the others.
/// By a tree of marks of the slots what is sought is found by halves.
#[derive(Drop)]
pub struct Buffer {
    slots: Vec<Option<Entry>>,
    tree: Tree,
}

impl Model for Buffer {
    ghost use Rattle.std.specs.Prelude.{List as Items};
    ghost use Rattle.nc_buffer.specs.declared.entry.Entry.{Entry as EntryAt};
    ghost use Rattle.nc_buffer.specs.Marks.{kept};
    ghost use Rattle.nc_buffer.specs.Index.{IsIndexed};

    ghost Value = { Items EntryAt };

    ghost view = { λ b. kept b.slots.items };

    ghost invariant = { λ b. IsIndexed b.slots.items b.tree };
}

/// Makes room for a slot more, if there is none: the slots that keep nothing go, and the others get a tree with twice as many leaves at least.
fn make_room(slots: &mut Vec<Option<Entry>>, tree: &mut Tree) -> Result<(), NoMemory>
    requires { Shows slots.old.items tree.old }
    ensures shown { Shows slots.new.items tree.new }
    ensures kept { kept slots.new.items ≡ kept slots.old.items }
    ensures room { OnOk result (length slots.new.items < length tree.new) }
{
    if slots.len() < tree.len() {
        return Ok(());
    }
    let fresh = tree.fresh(tree.kept())?;
    slots.retain(|slot| slot.is_some());
    *tree = fresh.filled(slots);
    Ok(())
}

/// The entry that a slot keeps.
fn entry_in(slots: &[Option<Entry>], leaf: usize) -> Entry
    requires within { leaf < length slots.now }
    requires entry { IsSome (slice_index_or slots.now leaf None) }
    ensures { slice_index_or slots.now leaf None ≡ Some result }
{
    match slots[leaf] {
        Some(entry) => entry,
        None => unreachable!(),
    }
}

impl Buffer {
    /// An empty buffer, which takes its memory from `alloc`.
    pub fn new(alloc: Global) -> Buffer
        ensures { result ≡ [] }
    {
        Buffer {
            slots: Vec::new(alloc),
            tree: Tree::new(alloc),
        }
    }

    /// Puts an entry behind the others. Without memory the buffer stays as it was.
    pub fn store(&mut self, entry: Entry) -> Result<(), NoMemory>
        requires { IsPastAll entry.id self.old }
        ensures ok { OnOk result (self.new ≡ self.old ++ entry ∷ []) }
        ensures err { OnErr result (self.new ≡ self.old) }
        ensures rising { StaysRising self.old self.new }
    {
        make_room(&mut self.slots, &mut self.tree)?;
        let leaf = self.slots.len();
        self.slots.push(Some(entry))?;
        self.tree.put(leaf, Mark::of(&entry));
        Ok(())
    }

    /// How many entries there are.
    pub fn len(&self) -> usize
        ensures count { result ≡ length self.now }
        ensures rising { IsRising self.now }
    {
        self.tree.kept()
    }

    /// The entry at a place, counted from the oldest, which is at 0.
    pub fn entry(&self, place: usize) -> Entry
        requires { place < length self.now }
        ensures at { slice_get self.now place ≡ Some result }
        ensures rising { IsRising self.now }
    {
        let leaf = self.tree.leaf_of(place);
        entry_in(&self.slots, leaf)
    }

    /// The place of the oldest entry past an id, if there is one.
    pub fn look(&self, after: &MsgId) -> Option<usize>
        ensures place { result ≡ first_past after.now self.now }
        ensures within { IfSome result (λ place. place < length self.now) }
        ensures rising { IsRising self.now }
    {
        let sought = Sought::past(after);
        let found = self.tree.first(&sought)?;
        Some(found.place)
    }

    /// Counts one grant more of the entry at a place. Its mark changes with the last grant alone.
    pub fn count_grant(&mut self, place: usize)
        requires place { place < length self.old }
        requires unspent { IfSome (slice_get self.old place) (λ e. e.grants < 4294967295) }
        ensures counted { self.new ≡ with_grant place self.old }
        ensures rising { StaysRising self.old self.new }
    {
        let leaf = self.tree.leaf_of(place);
        let mut entry = entry_in(&self.slots, leaf);
        entry.grants += 1;
        self.slots[leaf] = Some(entry);
        if entry.is_spent() {
            self.tree.put(leaf, Mark::of(&entry));
        }
    }

    /// Takes out the oldest entry that is sought, if there is one.
    fn take(&mut self, sought: Sought) -> Option<Entry>
        requires { tells sought no_mark ≡ false }
        ensures taken { result ≡ find (passes sought) self.old }
        ensures kept { self.new ≡ without_first (passes sought) self.old }
        ensures rising { StaysRising self.old self.new }
    {
        let found = self.tree.first(&sought)?;
        self.tree.put(found.leaf, Mark::none());
        self.slots[found.leaf].take()
    }

    /// Takes out the oldest entry that expires at or before the second `now`, if there is one.
    pub fn expire_one(&mut self, now: u64) -> Option<Entry>
        ensures taken { result ≡ find (is_expired now) self.old }
        ensures kept { self.new ≡ without_first (is_expired now) self.old }
        ensures fewer { LosesTaken result self.old self.new }
        ensures rising { StaysRising self.old self.new }
    {
        self.take(Sought::Expired(now))
    }

    /// Takes out the oldest entry that was granted [`MOST_GRANTS`](crate::MOST_GRANTS) times, if there is one.
    pub fn spent_one(&mut self) -> Option<Entry>
        ensures taken { result ≡ find is_spent self.old }
        ensures kept { self.new ≡ without_first is_spent self.old }
        ensures fewer { LosesTaken result self.old self.new }
        ensures rising { StaysRising self.old self.new }
    {
        self.take(Sought::Spent)
    }

    /// Takes out the oldest entry, if there is one.
    pub fn drop_oldest(&mut self) -> Option<Entry>
        ensures taken { result ≡ oldest self.old }
        ensures kept { self.new ≡ without_oldest self.old }
        ensures fewer { LosesTaken result self.old self.new }
        ensures rising { StaysRising self.old self.new }
    {
        self.take(Sought::Any)
    }
}

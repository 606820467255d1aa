//! The shelf: the spools of a worker in their order.
ghost use Rattle.std.specs.Prelude.{◌≡◌, ◌<◌, ◌≤◌, [], length, find, OnOk, IfOk, IfSome, IfNone};
ghost use Rattle.std.specs.List.{position, slice_index_or, remove};
ghost use Rattle.nc_spool_state.specs.Spool.{is_of, awaits, has_reader};
ghost use Rattle.nc_spool_state.specs.Shelf.{spool_of, others, place_before, with_spool, without_first, with_read_spool, keys_with};
ghost use Rattle.nc_spool_state.specs.Kept.{is_used};

use crate::key::SpoolKey;
use crate::spool::Spool;
use crate::uses::{Use, count_all, tell_use, uncount_all};
use nc_types::{ChanName, NoMemory};
use std::alloc::Global;
use std::cmp::Ordering;
use std::marker::Model;

/// Spools in ascending order of list and cursor, and how many of their found places use each hold.
/// A step takes a spool out, works on it, and puts it back. After want of memory it is only to be dropped.
#[derive(Drop)]
pub struct Shelf {
    spools: Vec<Spool>,
    uses: Vec<Use>,
}

impl Model for Shelf {
    ghost use Rattle.std.specs.Prelude.{List as Items};
    ghost use Rattle.nc_spool_state.specs.Spool.{SpoolAt};
    ghost use Rattle.nc_spool_state.specs.Uses.{AreCounted};

    ghost Value = { Items SpoolAt };

    ghost view = { λ s. s.spools.items };

    ghost invariant = { λ s. AreCounted s.uses.items s.spools.items };
}

/// The place of the spool of a key, if there is one.
fn place_of(spools: &[Spool], key: &SpoolKey) -> Option<usize>
    ensures place { result ≡ position (is_of key.now) spools.now }
    ensures within { IfSome result (λ place. place < length spools.now) }
{
    spools.iter().position(|spool| spool.is_of(key))
}

/// The place of the spool that awaits the look of this number, if there is one.
fn place_awaiting(spools: &[Spool], number: u64) -> Option<usize>
    ensures place { result ≡ position (awaits number) spools.now }
    ensures within { IfSome result (λ place. place < length spools.now) }
{
    spools.iter().position(|spool| spool.awaits(number))
}

/// The place of the spool where a subscriber stands, if there is one.
fn place_with(spools: &[Spool], k: u64) -> Option<usize>
    ensures place { result ≡ position (has_reader k) spools.now }
    ensures within { IfSome result (λ place. place < length spools.now) }
{
    spools.iter().position(|spool| spool.has_reader(k))
}

/// The place where a spool is to stand: before the first with a greater key.
fn place_before(spools: &[Spool], key: &SpoolKey) -> usize
    ensures place { result ≡ place_before key.now spools.now }
    ensures within { result ≤ length spools.now }
{
    for (place, spool) in spools.iter().enumerate() {
        if key.compare(&spool.key).is_lt() {
            return place;
        }
    }
    spools.len()
}

impl Shelf {
    /// No spools, which take their memory from `alloc`.
    pub fn new(alloc: Global) -> Shelf
        ensures { result ≡ [] }
    {
        Shelf {
            spools: Vec::new(alloc),
            uses: Vec::new(alloc),
        }
    }

    /// Where the spools take their memory from.
    pub fn alloc(&self) -> Global {
        *self.spools.allocator()
    }

    /// Takes out the spool at a place, and the uses of its found places with it.
    fn take_at(&mut self, place: usize) -> Spool
        requires { place < length self.old }
        ensures value { result ≡ slice_index_or self.old place result }
        ensures items { self.new ≡ remove self.old place }
    {
        let spool = self.spools.remove(place);
        uncount_all(&mut self.uses, &spool.places);
        spool
    }

    /// Takes out the spool of a key, if there is one.
    pub fn take(&mut self, key: &SpoolKey) -> Option<Spool>
        ensures taken { result ≡ spool_of key.now self.old }
        ensures others { self.new ≡ others key.now self.old }
    {
        let place = place_of(&self.spools, key)?;
        Some(self.take_at(place))
    }

    /// Takes out the spool that awaits the look of this number, if there is one.
    pub fn take_awaiting(&mut self, number: u64) -> Option<Spool>
        ensures taken { result ≡ find (awaits number) self.old }
        ensures others { self.new ≡ without_first (awaits number) self.old }
    {
        let place = place_awaiting(&self.spools, number)?;
        Some(self.take_at(place))
    }

    /// Takes out the spool where a subscriber stands, if there is one.
    pub fn take_with(&mut self, k: u64) -> Option<Spool>
        ensures taken { result ≡ find (has_reader k) self.old }
        ensures others { self.new ≡ without_first (has_reader k) self.old }
    {
        let place = place_with(&self.spools, k)?;
        Some(self.take_at(place))
    }

    /// Whether one of the spools uses the hold of a grant.
    pub fn uses(&self, owner: u8, g: u64) -> bool
        ensures { result ≡ is_used owner g self.now }
    {
        tell_use(&self.uses, owner, g)
    }

    /// Puts a spool back that was taken out, unless nobody stands there any more.
    pub fn put_back(&mut self, spool: Spool) -> Result<(), NoMemory>
        ensures { OnOk result (self.new ≡ with_read_spool spool self.old) }
    {
        if !spool.readers.is_empty() {
            self.put(spool)?;
        }
        Ok(())
    }

    /// Puts a spool in, at its place.
    pub fn put(&mut self, spool: Spool) -> Result<(), NoMemory>
        ensures { OnOk result (self.new ≡ with_spool spool self.old) }
    {
        count_all(&mut self.uses, &spool.places)?;
        let place = place_before(&self.spools, &spool.key);
        if let Err(failed) = self.spools.insert(place, spool) {
            uncount_all(&mut self.uses, &failed.value.places);
            return Err(NoMemory);
        }
        Ok(())
    }

    /// The keys of the spools that have a channel, in ascending order.
    pub fn keys_with(&self, alloc: Global, chan: &ChanName) -> Result<Vec<SpoolKey>, NoMemory>
        ensures { IfOk result (λ keys. keys.items ≡ keys_with chan.now self.now) }
    {
        let mut keys = Vec::new(alloc);
        for spool in &self.spools {
            if spool.has_channel(chan) {
                keys.push(spool.key.copied(alloc)?)?;
            }
        }
        Ok(keys)
    }
}

//! Spools: subscribers who wait together.
ghost use Rattle.std.specs.Prelude.{◌≡◌, ◌<◌, ◌≤◌, length, IfSome, OnOk};
ghost use Rattle.nc_spool_state.specs.Place.{is_awaited, place_awaiting};
ghost use Rattle.nc_spool_state.specs.Spool.{is_of, has_channel, awaits, has_reader, is_among, without, with_reader, without_reader, place_above, place_at, with_place};

use crate::key::SpoolKey;
use crate::place::Place;
use nc_types::{ChanName, NoMemory};
use std::marker::Model;

/// A subscriber: its number, and whether it ends with the first message that it is sent.
#[derive(Clone, Copy)]
pub struct Reader {
    pub k: u64,
    pub once: bool,
}

/// Subscribers with one list that stand behind one cursor, in ascending order, and what is known past it of each channel.
/// After want of memory it is only to be dropped.
#[derive(Drop)]
pub struct Spool {
    pub key: SpoolKey,
    pub places: Vec<Place>,
    pub readers: Vec<Reader>,
}

impl Model for Spool {
    ghost use Rattle.std.specs.Prelude.{◌≡◌, length};
    ghost use Rattle.nc_spool_state.specs.Spool.{SpoolAt};

    ghost Value = { SpoolAt };

    ghost view = { λ s. record { key = s.key; places = s.places.items; readers = s.readers.items } };

    ghost invariant = { λ s. length s.places.items ≡ length s.key.list };
}

/// The place of a subscriber among others: behind all with a number that isn't greater.
fn place_above(readers: &[Reader], k: u64) -> usize
    ensures place { result ≡ place_above k readers.now }
    ensures within { result ≤ length readers.now }
{
    for (place, reader) in readers.iter().enumerate() {
        if k < reader.k {
            return place;
        }
    }
    readers.len()
}

/// Whether one of some subscribers has this number.
fn is_among(readers: &[Reader], k: u64) -> bool
    ensures { result ≡ is_among k readers.now }
{
    readers.iter().any(|reader| reader.k == k)
}

/// Takes out a subscriber.
fn take_out(readers: &mut Vec<Reader>, k: u64)
    ensures { readers.new.items ≡ without k readers.old.items }
{
    readers.retain(|reader| reader.k != k);
}

/// Whether one of some places awaits the look of this number.
fn is_awaited(places: &[Place], number: u64) -> bool
    ensures { result ≡ is_awaited number places.now }
{
    places.iter().any(|place| place.awaits(number))
}

impl Spool {
    /// Whether this is the spool of a key.
    pub fn is_of(&self, key: &SpoolKey) -> bool
        ensures { result ≡ is_of key.now self.now }
    {
        key.compare(&self.key).is_eq()
    }

    /// Whether a channel is in the spool's list.
    pub fn has_channel(&self, chan: &ChanName) -> bool
        ensures { result ≡ has_channel chan.now self.now }
    {
        self.key.has(chan)
    }

    /// Whether one of the places awaits the look of this number.
    pub fn awaits(&self, number: u64) -> bool
        ensures { result ≡ awaits number self.now }
    {
        is_awaited(&self.places, number)
    }

    /// Whether a subscriber stands here.
    pub fn has_reader(&self, k: u64) -> bool
        ensures { result ≡ has_reader k self.now }
    {
        is_among(&self.readers, k)
    }

    /// The place that awaits the look of this number, if there is one.
    pub fn place_awaiting(&self, number: u64) -> Option<usize>
        ensures place { result ≡ place_awaiting number self.now.places }
        ensures within { IfSome result (λ place. place < length self.now.key.list) }
    {
        self.places.iter().position(|place| place.awaits(number))
    }

    /// What is known at a place.
    pub fn place(&self, j: usize) -> Place
        requires { j < length self.now.key.list }
        ensures { result ≡ place_at self.now j }
    {
        self.places[j]
    }

    /// What is known at a place from now on.
    pub fn set_place(&mut self, j: usize, place: Place)
        requires { j < length self.old.key.list }
        ensures { self.new ≡ with_place j place self.old }
    {
        self.places[j] = place;
    }

    /// A subscriber enters, at its place.
    pub fn enter(&mut self, reader: Reader) -> Result<(), NoMemory>
        ensures { OnOk result (self.new ≡ with_reader reader self.old) }
    {
        let place = place_above(&self.readers, reader.k);
        self.readers.insert(place, reader)?;
        Ok(())
    }

    /// A subscriber leaves.
    pub fn leave(&mut self, k: u64)
        ensures { self.new ≡ without_reader k self.old }
    {
        take_out(&mut self.readers, k);
    }
}

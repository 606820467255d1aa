//! Subscribers that begin behind the newest message, until they are started.
ghost use Rattle.std.specs.Prelude.{◌≡◌, ◌<◌, ◌≤◌, [], ◌∷◌, ◌++◌, length, find, IfSome, OnOk};
ghost use Rattle.std.specs.List.{position};
ghost use Rattle.nc_spool_state.specs.Shelf.{without_first};
ghost use Rattle.nc_spool_state.specs.Edge.{is_edge, edge_awaiting};
ghost use Rattle.nc_spool_state.specs.Starting.{with_edge, starts_with, start_awaits};

use crate::edge::{Edge, is_among};
use crate::spool::Reader;
use nc_types::{ChanList, Cursor, NoMemory};
use std::alloc::Global;
use std::marker::Model;

/// A subscriber that isn't started yet, with an edge for each channel of its list.
/// The cursor is there once each edge was answered for the first time.
#[derive(Drop)]
pub struct Starting {
    pub reader: Reader,
    pub list: ChanList,
    pub edges: Vec<Edge>,
    pub cursor: Option<Cursor>,
}

impl Model for Starting {
    ghost use Rattle.std.specs.Prelude.{◌≡◌, length, IfSome};
    ghost use Rattle.nc_spool_state.specs.Starting.{StartingAt};

    ghost Value = { StartingAt };

    ghost view = { λ s. record { reader = s.reader; list = s.list; edges = s.edges.items; cursor = s.cursor } };

    ghost invariant = { λ s. (length s.edges.items ≡ length s.list) × IfSome s.cursor (λ c. length c.tags ≡ length s.list) };
}

impl Starting {
    /// Whether this is the subscriber of a number.
    pub fn is_of(&self, k: u64) -> bool
        ensures { result ≡ starts_with k self.now }
    {
        self.reader.k == k
    }

    /// Whether one of its edges in flight has this number.
    pub fn awaits(&self, number: u64) -> bool
        ensures { result ≡ start_awaits number self.now }
    {
        is_among(&self.edges, number)
    }

    /// The place whose edge in flight has this number, if there is one.
    pub fn place_awaiting(&self, number: u64) -> Option<usize>
        ensures place { result ≡ edge_awaiting number self.now.edges }
        ensures within { IfSome result (λ place. place < length self.now.list) }
    {
        self.edges.iter().position(|edge| edge.is_edge(number))
    }

    /// What is known at a place from now on.
    pub fn set_edge(&mut self, j: usize, edge: Edge)
        requires { j < length self.old.list }
        ensures { self.new ≡ with_edge j edge self.old }
    {
        self.edges[j] = edge;
    }
}

/// The subscribers that aren't started yet, in the order in which they came or went on.
/// After want of memory they are only to be dropped.
#[derive(Drop)]
pub struct Starts {
    starts: Vec<Starting>,
}

impl Model for Starts {
    ghost use Rattle.std.specs.Prelude.{List as Items};
    ghost use Rattle.nc_spool_state.specs.Starting.{StartingAt};

    ghost Value = { Items StartingAt };

    ghost view = { λ s. s.starts.items };
}

/// The place of a subscriber among some, if it is there.
fn place_of(starts: &[Starting], k: u64) -> Option<usize>
    ensures place { result ≡ position (starts_with k) starts.now }
    ensures within { IfSome result (λ place. place < length starts.now) }
{
    starts.iter().position(|starting| starting.is_of(k))
}

/// The place of the subscriber whose edge in flight has this number, if there is one.
fn place_awaiting(starts: &[Starting], number: u64) -> Option<usize>
    ensures place { result ≡ position (start_awaits number) starts.now }
    ensures within { IfSome result (λ place. place < length starts.now) }
{
    starts.iter().position(|starting| starting.awaits(number))
}

impl Starts {
    /// No subscribers, which take their memory from `alloc`.
    pub fn new(alloc: Global) -> Starts
        ensures { result ≡ [] }
    {
        Starts {
            starts: Vec::new(alloc),
        }
    }

    /// Takes out a subscriber, if it is there.
    pub fn take(&mut self, k: u64) -> Option<Starting>
        ensures taken { result ≡ find (starts_with k) self.old }
        ensures others { self.new ≡ without_first (starts_with k) self.old }
    {
        let place = place_of(&self.starts, k)?;
        Some(self.starts.remove(place))
    }

    /// Takes out the subscriber whose edge in flight has this number, if there is one.
    pub fn take_awaiting(&mut self, number: u64) -> Option<Starting>
        ensures taken { result ≡ find (start_awaits number) self.old }
        ensures others { self.new ≡ without_first (start_awaits number) self.old }
    {
        let place = place_awaiting(&self.starts, number)?;
        Some(self.starts.remove(place))
    }

    /// Puts a subscriber behind the others.
    pub fn put(&mut self, starting: Starting) -> Result<(), NoMemory>
        ensures { OnOk result (self.new ≡ self.old ++ starting ∷ []) }
    {
        self.starts.push(starting)?;
        Ok(())
    }
}

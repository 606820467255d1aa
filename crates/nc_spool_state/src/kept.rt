//! Kept holds: what a worker was granted and hasn't given back.
ghost use Rattle.std.specs.Prelude.{◌≡◌, ◌<◌, ◌≤◌, [], length, find, OnOk, IfSome, Some, IsTrue};
ghost use Rattle.std.specs.List.{position, list_any};
ghost use Rattle.std.specs.Option.{option_map};
ghost use Rattle.nc_spool_state.specs.Shelf.{without_first};
ghost use Rattle.nc_spool_state.specs.Kept.{is_grant, is_before, place_of_grant, with_hold, hold_of, is_idle, is_kept};

use crate::shelf::Shelf;
use nc_types::NoMemory;
use std::alloc::Global;
use std::marker::Model;

/// A hold of a message: the owner that granted it, its number of the grant, the slot of the message, and the hold itself.
#[derive(Drop)]
pub struct Held<H> {
    pub owner: u8,
    pub g: u64,
    pub slot: u32,
    pub hold: H,
}

/// Holds in ascending order of owner and grant. After want of memory they are only to be dropped.
#[derive(Drop)]
pub struct Kept<H> {
    holds: Vec<Held<H>>,
}

impl<H> Model for Kept<H> {
    ghost use Rattle.std.specs.Prelude.{List as Items};
    ghost use Rattle.nc_spool_state.specs.declared.kept.Held.{Held as HeldAt};

    ghost Value = { Items (HeldAt H) };

    ghost view = { λ k. k.holds.items };
}

impl<H> Held<H> {
    /// Whether this is the hold of a grant.
    fn is_grant(&self, owner: u8, g: u64) -> bool
        ensures { result ≡ is_grant owner g self.now }
    {
        self.owner == owner && self.g == g
    }

    /// Whether a grant is to stand before this hold.
    fn is_behind(&self, owner: u8, g: u64) -> bool
        ensures { result ≡ is_before owner g self.now }
    {
        owner < self.owner || (owner == self.owner && g < self.g)
    }
}

/// The place of a grant's hold, if it is kept.
fn place_of<H>(holds: &[Held<H>], owner: u8, g: u64) -> Option<usize>
    ensures place { result ≡ position (is_grant owner g) holds.now }
    ensures within { IfSome result (λ place. place < length holds.now) }
{
    holds.iter().position(|held| held.is_grant(owner, g))
}

/// Whether the hold of a grant is among some.
fn is_any_grant<H>(holds: &[Held<H>], owner: u8, g: u64) -> bool
    ensures { result ≡ is_kept owner g holds.now }
{
    holds.iter().any(|held| held.is_grant(owner, g))
}

/// The place where a grant's hold is to stand: before the first with a greater grant.
fn place_before<H>(holds: &[Held<H>], owner: u8, g: u64) -> usize
    ensures place { result ≡ place_of_grant owner g holds.now }
    ensures within { result ≤ length holds.now }
{
    for (place, held) in holds.iter().enumerate() {
        if held.is_behind(owner, g) {
            return place;
        }
    }
    holds.len()
}

/// The place of the first hold that no spool uses, if there is one.
fn place_of_idle<H>(holds: &[Held<H>], shelf: &Shelf) -> Option<usize>
    ensures place { result ≡ position (is_idle shelf.now) holds.now }
    ensures within { IfSome result (λ place. place < length holds.now) }
{
    holds
        .iter()
        .position(|held| !shelf.uses(held.owner, held.g))
}

impl<H: Drop> Kept<H> {
    /// No holds, which take their memory from `alloc`.
    pub fn new(alloc: Global) -> Kept<H>
        ensures { result ≡ [] }
    {
        Kept {
            holds: Vec::new(alloc),
        }
    }

    /// Keeps a hold, at its place.
    pub fn keep(&mut self, held: Held<H>) -> Result<(), NoMemory>
        ensures { OnOk result (self.new ≡ with_hold held self.old) }
    {
        let place = place_before(&self.holds, held.owner, held.g);
        self.holds.insert(place, held)?;
        Ok(())
    }

    /// Whether the hold of a grant is kept.
    pub fn keeps(&self, owner: u8, g: u64) -> bool
        ensures { result ≡ is_kept owner g self.now }
    {
        is_any_grant(&self.holds, owner, g)
    }

    /// The hold of a grant, which is kept.
    pub fn holding(&self, owner: u8, g: u64) -> &H
        requires { IsTrue (is_kept owner g self.now) }
        ensures { hold_of owner g self.now ≡ Some result.now }
    {
        match place_of(&self.holds, owner, g) {
            Some(place) => &self.holds[place].hold,
            None => unreachable!(),
        }
    }

    /// Takes out the first hold that no spool uses, by owner and grant. None comes exactly where each hold has a use.
    pub fn take_idle(&mut self, shelf: &Shelf) -> Option<Held<H>>
        ensures taken { result ≡ find (is_idle shelf.now) self.old }
        ensures others { self.new ≡ without_first (is_idle shelf.now) self.old }
    {
        let place = place_of_idle(&self.holds, shelf)?;
        Some(self.holds.remove(place))
    }
}

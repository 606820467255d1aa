//! The rings of all senders.
ghost use Rattle.std.specs.Prelude.{◌≡◌, ◌≢◌, ◌<◌, ◌∷◌, ◌++◌, ℕ, [], length, OnOk, drop, nat_lt};
ghost use Rattle.nc_rings.specs.Ring.{first_packet, ring_in, row_of, ring_of};

use crate::row::RingRow;
use nc_alert::Packet;
use nc_types::NoMemory;
use std::alloc::Global;
use std::marker::Model;

/// The rings between each two workers. Each number below 256 is a worker; between two of whom nothing was carried yet is an empty ring.
///
/// After want of memory they are only to be dropped.
#[derive(Drop)]
pub struct Rings<H> {
    alloc: Global,
    rows: Vec<RingRow<H>>,
}

impl<H> Model for Rings<H> {
    ghost use Rattle.std.specs.Prelude.{List as Items};
    ghost use Rattle.nc_alert.specs.declared.packet.Packet.{Packet as PacketOf};

    ghost Value = { Items (Items (Items (PacketOf H))) };

    ghost view = { λ r. r.rows.items };
}

/// Makes rows until there is one for a sender.
#[tactic(auto, using(crate::proofs::OneMore::one_more))]
fn reach<H: Drop>(alloc: Global, rows: &mut Vec<RingRow<H>>, from: usize) -> Result<(), NoMemory>
    ensures same { OnOk result ((v : ℕ) → row_of rows.new.items v ≡ row_of rows.old.items v) }
    ensures within { OnOk result (from < length rows.new.items) }
{
    while rows.len() <= from {
        rows.push(RingRow::new(alloc))?;
    }
    Ok(())
}

impl<H: Drop> Rings<H> {
    /// All rings are empty.
    pub fn new(alloc: Global) -> Rings<H>
        ensures { result ≡ [] }
    {
        Rings {
            alloc,
            rows: Vec::new(alloc),
        }
    }

    /// Whether one packet more from a worker to another fits.
    pub fn has_room(&self, from: u8, to: u8) -> bool
        ensures { result ≡ nat_lt (length (ring_of self.now from to)) 256 }
    {
        match self.rows.get(usize::from(from)) {
            Some(row) => row.has_room(to),
            None => true,
        }
    }

    /// How many packets are on their way from a worker to another.
    pub fn len(&self, from: u8, to: u8) -> usize
        ensures { result ≡ length (ring_of self.now from to) }
    {
        match self.rows.get(usize::from(from)) {
            Some(row) => row.len(to),
            None => 0,
        }
    }

    /// Puts a packet from a worker to another behind the others between them.
    pub fn push(&mut self, from: u8, to: u8, packet: Packet<H>) -> Result<(), NoMemory>
        requires { length (ring_of self.old from to) < 256 }
        ensures pushed { OnOk result (ring_of self.new from to ≡ ring_of self.old from to ++ packet ∷ []) }
        ensures other_receivers { OnOk result ((w : ℕ) → w ≢ to → ring_of self.new from w ≡ ring_of self.old from w) }
        ensures other_senders { OnOk result ((v : ℕ) → v ≢ from → row_of self.new v ≡ row_of self.old v) }
    {
        let from = usize::from(from);
        reach(self.alloc, &mut self.rows, from)?;
        self.rows[from].push(self.alloc, to, packet)
    }

    /// Takes the first packet from a worker to another. None comes exactly where there is none.
    pub fn take(&mut self, from: u8, to: u8) -> Option<Packet<H>>
        ensures taken { result ≡ first_packet (ring_of self.old from to) }
        ensures rest { ring_of self.new from to ≡ drop 1 (ring_of self.old from to) }
        ensures other_receivers { (w : ℕ) → w ≢ to → ring_of self.new from w ≡ ring_of self.old from w }
        ensures other_senders { (v : ℕ) → v ≢ from → row_of self.new v ≡ row_of self.old v }
    {
        let from = usize::from(from);
        if from < self.rows.len() {
            self.rows[from].take(to)
        } else {
            None
        }
    }
}

//! The rings of one sender.
ghost use Rattle.std.specs.Prelude.{◌≡◌, ◌≢◌, ◌<◌, ◌∷◌, ◌++◌, ℕ, [], length, OnOk, drop, nat_lt};
ghost use Rattle.nc_rings.specs.Ring.{first_packet, ring_in};

use crate::ring::Ring;
use nc_alert::Packet;
use nc_types::NoMemory;
use std::alloc::Global;
use std::marker::Model;

/// The rings from one worker to the others. Each number below 256 is a receiver; one to whom nothing was carried yet has an empty ring.
/// After want of memory they are only to be dropped.
#[derive(Drop)]
pub struct RingRow<H> {
    rings: Vec<Ring<H>>,
}

impl<H> Model for RingRow<H> {
    ghost use Rattle.std.specs.Prelude.{List as Items};
    ghost use Rattle.nc_alert.specs.declared.packet.Packet.{Packet as PacketOf};

    ghost Value = { Items (Items (PacketOf H)) };

    ghost view = { λ r. r.rings.items };
}

/// Makes rings until there is one for a receiver.
#[tactic(auto, using(crate::proofs::OneMore::one_more))]
fn reach<H: Drop>(alloc: Global, rings: &mut Vec<Ring<H>>, to: usize) -> Result<(), NoMemory>
    ensures same { OnOk result ((w : ℕ) → ring_in rings.new.items w ≡ ring_in rings.old.items w) }
    ensures within { OnOk result (to < length rings.new.items) }
{
    while rings.len() <= to {
        rings.push(Ring::new(alloc))?;
    }
    Ok(())
}

impl<H: Drop> RingRow<H> {
    /// No ring yet.
    pub fn new(alloc: Global) -> RingRow<H>
        ensures { result ≡ [] }
    {
        RingRow {
            rings: Vec::new(alloc),
        }
    }

    /// Whether one packet more to a worker fits.
    pub fn has_room(&self, to: u8) -> bool
        ensures { result ≡ nat_lt (length (ring_in self.now to)) 256 }
    {
        match self.rings.get(usize::from(to)) {
            Some(ring) => ring.has_room(),
            None => true,
        }
    }

    /// How many packets are on their way to a worker.
    pub fn len(&self, to: u8) -> usize
        ensures { result ≡ length (ring_in self.now to) }
    {
        match self.rings.get(usize::from(to)) {
            Some(ring) => ring.len(),
            None => 0,
        }
    }

    /// Puts a packet to a worker behind the others to it.
    pub fn push(&mut self, alloc: Global, to: u8, packet: Packet<H>) -> Result<(), NoMemory>
        requires { length (ring_in self.old to) < 256 }
        ensures pushed { OnOk result (ring_in self.new to ≡ ring_in self.old to ++ packet ∷ []) }
        ensures others { OnOk result ((w : ℕ) → w ≢ to → ring_in self.new w ≡ ring_in self.old w) }
    {
        let to = usize::from(to);
        reach(alloc, &mut self.rings, to)?;
        self.rings[to].push(packet)
    }

    /// Takes the first packet to a worker. None comes exactly where there is none.
    pub fn take(&mut self, to: u8) -> Option<Packet<H>>
        ensures taken { result ≡ first_packet (ring_in self.old to) }
        ensures rest { ring_in self.new to ≡ drop 1 (ring_in self.old to) }
        ensures others { (w : ℕ) → w ≢ to → ring_in self.new w ≡ ring_in self.old w }
    {
        let to = usize::from(to);
        if to < self.rings.len() {
            self.rings[to].take()
        } else {
            None
        }
    }
}

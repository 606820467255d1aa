//! One ring.
ghost use Rattle.std.specs.Prelude.{◌≡◌, ◌<◌, ◌≤◌, ◌∷◌, ◌++◌, [], length, OnOk, OnErr, drop, nat_lt, nat_eq};
ghost use Rattle.nc_rings.specs.Ring.{first_packet};

use nc_alert::Packet;
use nc_types::NoMemory;
use std::alloc::Global;
use std::collections::VecDeque;
use std::marker::Model;

/// A ring holds at most so many packets.
pub const RING_SIZE: usize = 256;

/// The packets from one worker to another, the oldest first, which contracts see as their list.
/// After want of memory it is only to be dropped.
#[derive(Drop)]
pub struct Ring<H> {
    packets: VecDeque<Packet<H>>,
}

impl<H> Model for Ring<H> {
    ghost use Rattle.std.specs.Prelude.{List as Items};
    ghost use Rattle.nc_alert.specs.declared.packet.Packet.{Packet as PacketOf};

    ghost Value = { Items (PacketOf H) };

    ghost view = { λ r. r.packets.items };
}

impl<H: Drop> Ring<H> {
    /// An empty ring.
    pub fn new(alloc: Global) -> Ring<H>
        ensures { result ≡ [] }
    {
        Ring {
            packets: VecDeque::new(alloc),
        }
    }

    /// Whether one packet more fits.
    pub fn has_room(&self) -> bool
        ensures { result ≡ nat_lt (length self.now) 256 }
    {
        self.packets.len() < RING_SIZE
    }

    /// How many packets are in it.
    pub fn len(&self) -> usize
        ensures { result ≡ length self.now }
    {
        self.packets.len()
    }

    /// Puts a packet behind the others.
    pub fn push(&mut self, packet: Packet<H>) -> Result<(), NoMemory>
        requires { length self.old < 256 }
        ensures ok { OnOk result (self.new ≡ self.old ++ packet ∷ []) }
        ensures err { OnErr result (self.new ≡ self.old) }
    {
        self.packets.push_back(packet)?;
        Ok(())
    }

    /// Takes the first packet. None comes exactly where there is none.
    pub fn take(&mut self) -> Option<Packet<H>>
        ensures taken { result ≡ first_packet self.old }
        ensures others { self.new ≡ drop 1 self.old }
    {
        self.packets.pop_front()
    }
}

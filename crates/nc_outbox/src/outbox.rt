//! The packets to one worker.
ghost use Rattle.std.specs.Prelude.{◌≡◌, ◌+◌, length, IfOk, IfErr, OnOk, Option, slice_get};
ghost use Rattle.nc_outbox.specs.Box.{new_box, boxed, unboxed, first_packet};

use nc_alert::{Outgoing, Packet};
use nc_types::NoMemory;
use std::alloc::Global;
use std::collections::VecDeque;
use std::marker::Model;

/// The packets that a worker made for one of the others and that weren't carried yet, the oldest first, and the number of the next one.
/// After want of memory it is only to be dropped.
#[derive(Drop)]
pub struct Outbox<H> {
    next: u64,
    packets: VecDeque<Packet<H>>,
}

impl<H> Model for Outbox<H> {
    ghost use Rattle.nc_outbox.specs.Box.{BoxAt};

    ghost Value = { BoxAt H };

    ghost view = { λ b. record { next = b.next; packets = b.packets.items } };
}

impl<H: Drop> Outbox<H> {
    /// An empty box, whose first packet will have the number `first`.
    pub fn new(alloc: Global, first: u64) -> Outbox<H>
        ensures { result ≡ new_box first }
    {
        Outbox {
            next: first,
            packets: VecDeque::new(alloc),
        }
    }

    /// Puts the packet of an alert of worker `from` behind the others, and gives the number that it drew.
    /// `NoMemory` comes also where no number below 2^64 is left for the next one.
    pub fn put(&mut self, from: u8, outgoing: Outgoing<H>) -> Result<u64, NoMemory>
        ensures number { IfOk result (λ n. n ≡ self.old.next) }
        ensures put { OnOk result (self.new ≡ boxed from outgoing self.old) }
    {
        let number = self.next;
        let Some(next) = number.checked_add(1) else {
            return Err(NoMemory);
        };
        self.packets.push_back(outgoing.into_packet(from, number))?;
        self.next = next;
        Ok(number)
    }

    /// Takes the first packet. None comes exactly where the box is empty.
    pub fn take(&mut self) -> Option<Packet<H>>
        ensures taken { result ≡ first_packet self.old.packets }
        ensures others { self.new ≡ unboxed self.old }
    {
        self.packets.pop_front()
    }

    /// The number of the next packet.
    pub fn number(&self) -> u64
        ensures { result ≡ self.now.next }
    {
        self.next
    }

    /// How many packets wait.
    pub fn waiting(&self) -> usize
        ensures { result ≡ length self.now.packets }
    {
        self.packets.len()
    }
}

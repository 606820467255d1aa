//! The packets to all workers.
ghost use Rattle.std.specs.Prelude.{◌≡◌, ◌<◌, ◌∷◌, ◌++◌, [], length, IfOk, OnOk, drop};
ghost use Rattle.nc_journal.specs.declared.event.Event.TheVariants.{Made};
ghost use Rattle.nc_alert.specs.Packet.{packet_of};
ghost use Rattle.nc_owner.specs.AlertLines.{alert_line};
ghost use Rattle.nc_worker_state.specs.Worker.{with_at};
ghost use Rattle.nc_owner_laws.specs.Weave.{numbered};
ghost use Rattle.nc_outbox.specs.Box.{first_packet};
ghost use Rattle.nc_outbox.specs.Outboxes.{new_outboxes, box_of, next_in, packets_in, next_of, packets_of};

use crate::line::line_of;
use crate::outbox::Outbox;
use nc_alert::{Outgoing, Packet};
use nc_journal::Event;
use nc_types::NoMemory;
use std::alloc::Global;
use std::marker::Model;

/// The packets that a worker made and that weren't carried yet, for each receiver, and the number of the next one to it.
///
/// Each number below 256 is a receiver; one to whom nothing was made yet has an empty box. After want of memory they are only to be dropped.
#[derive(Drop)]
pub struct Outboxes<H> {
    alloc: Global,
    first: u64,
    boxes: Vec<Outbox<H>>,
}

impl<H> Model for Outboxes<H> {
    ghost use Rattle.nc_outbox.specs.Outboxes.{OutboxesAt};

    ghost Value = { OutboxesAt H };

    ghost view = { λ o. record { first = o.first; boxes = o.boxes.items } };
}

/// Makes boxes until there is one for a receiver.
fn reach<H: Drop>(
    alloc: Global,
    first: u64,
    boxes: &mut Vec<Outbox<H>>,
    to: usize,
) -> Result<(), NoMemory>
    ensures same { OnOk result (box_of first boxes.new.items ≡ box_of first boxes.old.items) }
    ensures within { OnOk result (to < length boxes.new.items) }
{
    while boxes.len() <= to {
        boxes.push(Outbox::new(alloc, first))?;
    }
    Ok(())
}

/// Puts a packet into the box of its receiver, and gives the number that it drew.
fn put_into<H: Drop>(
    alloc: Global,
    first: u64,
    boxes: &mut Vec<Outbox<H>>,
    from: u8,
    outgoing: Outgoing<H>,
) -> Result<u64, NoMemory>
    ensures number { IfOk result (λ n. n ≡ next_in (box_of first boxes.old.items) outgoing.to) }
    ensures next { OnOk result (next_in (box_of first boxes.new.items) ≡ numbered (next_in (box_of first boxes.old.items)) outgoing.to) }
    ensures packets { OnOk result (packets_in (box_of first boxes.new.items)
        ≡ with_at (packets_in (box_of first boxes.old.items)) outgoing.to (packets_in (box_of first boxes.old.items) outgoing.to
        ++ packet_of from (next_in (box_of first boxes.old.items) outgoing.to) outgoing ∷ [])) }
{
    let to = usize::from(outgoing.to);
    reach(alloc, first, boxes, to)?;
    let n = boxes[to].put(from, outgoing)?;
    Ok(n)
}

impl<H: Drop> Outboxes<H> {
    /// Empty boxes, which take their memory from `alloc`. The numbers of packets begin with `first`.
    pub fn new(alloc: Global, first: u64) -> Outboxes<H>
        ensures { result ≡ new_outboxes first }
    {
        Outboxes {
            alloc,
            first,
            boxes: Vec::new(alloc),
        }
    }

    /// Puts an alert of worker `from` behind the others to its receiver, under the next number to it, and gives the event that tells it.
    ///
    /// `NoMemory` comes also where no number below 2^64 is left for the next one.
    pub fn post(&mut self, from: u8, outgoing: Outgoing<H>) -> Result<Event, NoMemory>
        ensures event { IfOk result (λ event. event ≡ Made from outgoing.to (next_of self.old outgoing.to) (alert_line outgoing.alert)) }
        ensures next { OnOk result (next_of self.new ≡ numbered (next_of self.old) outgoing.to) }
        ensures packets { OnOk result (packets_of self.new
            ≡ with_at (packets_of self.old) outgoing.to (packets_of self.old outgoing.to ++ packet_of from (next_of self.old outgoing.to) outgoing ∷ [])) }
    {
        let a = line_of(&outgoing.alert)?;
        let to = outgoing.to;
        let n = put_into(self.alloc, self.first, &mut self.boxes, from, outgoing)?;
        Ok(Event::Made {
            w: u64::from(from),
            to: u64::from(to),
            n,
            a,
        })
    }

    /// Takes the first packet to a worker. None comes exactly where none waits.
    pub fn take(&mut self, to: u8) -> Option<Packet<H>>
        ensures taken { result ≡ first_packet (packets_of self.old to) }
        ensures packets { packets_of self.new ≡ with_at (packets_of self.old) to (drop 1 (packets_of self.old to)) }
        ensures next { next_of self.new ≡ next_of self.old }
    {
        let place = usize::from(to);
        if place < self.boxes.len() {
            self.boxes[place].take()
        } else {
            None
        }
    }

    /// The number of the next packet to a worker.
    pub fn number(&self, to: u8) -> u64
        ensures { result ≡ next_of self.now to }
    {
        match self.boxes.get(usize::from(to)) {
            Some(outbox) => outbox.number(),
            None => self.first,
        }
    }

    /// How many packets to a worker wait.
    pub fn waiting(&self, to: u8) -> usize
        ensures { result ≡ length (packets_of self.now to) }
    {
        match self.boxes.get(usize::from(to)) {
            Some(outbox) => outbox.waiting(),
            None => 0,
        }
    }
}

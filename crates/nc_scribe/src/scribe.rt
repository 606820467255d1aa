//! What a worker writes down.
ghost use Rattle.std.specs.Prelude.{◌≡◌, [], ◌∷◌, ◌++◌, length, drop, OnOk, IfSome, true};
ghost use Rattle.nc_alert.specs.Packet.{grant_of};
ghost use Rattle.nc_slots.specs.Slots.{HoldAt};
ghost use Rattle.nc_worker_state.specs.Deed.{next_after};
ghost use Rattle.nc_worker_state.specs.Worker.{with_at};
ghost use Rattle.nc_outbox.specs.Box.{first_packet};
ghost use Rattle.nc_outbox.specs.Outboxes.{next_of, packets_of, outbox_of, IsGranted, AreOwn};
ghost use Rattle.nc_scribe.specs.Kinds.{is_aside};
ghost use Rattle.nc_scribe.specs.Story.{sent_on};
ghost use Rattle.nc_scribe.specs.Scribe.{new_scribe, made_event, TellsMore, KeepsOwn};

use nc_alert::{Outgoing, Packet};
use nc_journal::Event;
use nc_outbox::Outboxes;
use nc_types::{List, NoMemory};
use std::alloc::Global;
use std::marker::Model;
use std::mem;

/// The events that a worker told in the step so far, and the packets that it made and that weren't carried yet.
/// After want of memory it is only to be dropped.
#[derive(Drop)]
pub struct Scribe<H> {
    alloc: Global,
    me: u8,
    events: List<Event>,
    outboxes: Outboxes<H>,
}

impl<H> Model for Scribe<H> {
    ghost use Rattle.nc_scribe.specs.Scribe.{ScribeAt};

    ghost Value = { ScribeAt H };

    ghost view = { λ s. record { me = s.me; events = s.events; outboxes = s.outboxes } };
}

/// Puts the packet of an alert into the outboxes, and the event that tells it behind the others.
fn make_into<H: Drop>(
    me: u8,
    events: &mut List<Event>,
    outboxes: &mut Outboxes<H>,
    outgoing: Outgoing<H>,
) -> Result<(), NoMemory>
    ensures events { OnOk result (events.new ≡ events.old ++ made_event me (next_of outboxes.old) outgoing ∷ []) }
    ensures next { OnOk result (next_of outboxes.new ≡ next_after (next_of outboxes.old) (made_event me (next_of outboxes.old) outgoing ∷ [])) }
    ensures waits { OnOk result (outbox_of outboxes.new ≡ sent_on (outbox_of outboxes.old) (made_event me (next_of outboxes.old) outgoing ∷ [])) }
    ensures own { OnOk result ((held : H → HoldAt)
        → IfSome (grant_of outgoing.alert) (IsGranted held me) → AreOwn held me outboxes.old → AreOwn held me outboxes.new) }
{
    let event = outboxes.post(me, outgoing)?;
    events.push(event)?;
    Ok(())
}

impl<H: Drop> Scribe<H> {
    /// The scribe of worker `me`, which told nothing yet. The numbers of packets begin with `first`.
    pub fn new(alloc: Global, me: u8, first: u64) -> Scribe<H>
        ensures { result ≡ new_scribe me first }
    {
        Scribe {
            alloc,
            me,
            events: List::new(alloc),
            outboxes: Outboxes::new(alloc, first),
        }
    }

    /// The worker whose scribe it is.
    pub fn me(&self) -> u8
        ensures { result ≡ self.now.me }
    {
        self.me
    }

    /// Tells an event that makes nothing.
    pub fn tell(&mut self, event: Event) -> Result<(), NoMemory>
        requires { is_aside event ≡ true }
        ensures tells { OnOk result (TellsMore self.old self.new (event ∷ [])) }
        ensures own { OnOk result ((held : H → HoldAt) → KeepsOwn held self.old self.new) }
    {
        self.events.push(event)?;
        Ok(())
    }

    /// Makes an alert to a worker. `NoMemory` comes also where no number of packets to it is left.
    pub fn make(&mut self, outgoing: Outgoing<H>) -> Result<(), NoMemory>
        ensures tells { OnOk result (TellsMore self.old self.new (made_event self.old.me (next_of self.old.outboxes) outgoing ∷ [])) }
        ensures own { OnOk result ((held : H → HoldAt)
            → IfSome (grant_of outgoing.alert) (IsGranted held self.old.me) → KeepsOwn held self.old self.new) }
    {
        make_into(self.me, &mut self.events, &mut self.outboxes, outgoing)?;
        Ok(())
    }

    /// Gives the events of the step that ends.
    pub fn finish(&mut self) -> List<Event>
        ensures events { result ≡ self.old.events }
        ensures rest { self.new ≡ record self.old { events = [] } }
    {
        mem::replace(&mut self.events, List::new(self.alloc))
    }

    /// The number of the next packet to a worker.
    pub fn number(&self, to: u8) -> u64
        ensures { result ≡ next_of self.now.outboxes to }
    {
        self.outboxes.number(to)
    }

    /// How many packets to a worker wait.
    pub fn waiting(&self, to: u8) -> usize
        ensures { result ≡ length (packets_of self.now.outboxes to) }
    {
        self.outboxes.waiting(to)
    }

    /// Takes the first packet to a worker. None comes exactly where none waits.
    pub fn take(&mut self, to: u8) -> Option<Packet<H>>
        ensures taken { result ≡ first_packet (packets_of self.old.outboxes to) }
        ensures packets { packets_of self.new.outboxes ≡ with_at (packets_of self.old.outboxes) to (drop 1 (packets_of self.old.outboxes to)) }
        ensures next { next_of self.new.outboxes ≡ next_of self.old.outboxes }
        ensures me { self.new.me ≡ self.old.me }
        ensures events { self.new.events ≡ self.old.events }
    {
        self.outboxes.take(to)
    }
}

//! A worker, as far as the floor calls on it.
ghost use Rattle.std.specs.Prelude.{◌≡◌, ◌≢◌, ◌<◌, ◌∷◌, [], ℕ, length, drop, true, IfOk, OnOk, IfSome, IfNone};
ghost use Rattle.nc_slots.specs.Plain.{row_at};
ghost use Rattle.nc_owner_laws.specs.OwnerFits.{OwnerFits};
ghost use Rattle.nc_worker_state.specs.Setup.{setup_of};
ghost use Rattle.nc_worker_state.specs.Incoming.{incoming_of, told_packet};
ghost use Rattle.nc_worker_state.specs.Worker.{WorkerAt, new_worker, with_at, is_worn, IsHandled};
ghost use Rattle.nc_floor.specs.Hand.{me_of, seat_in, IsBetween, IsRight};

use nc_alert::Packet;
use nc_journal::EventList;
use nc_slots::{PlainHold, PlainSlots, Slots};
use nc_types::{Config, NoMemory};
use nc_worker_state::Input;
use std::alloc::Global;

/// A worker that handles what comes as the pure step does. After want of memory it is only to be dropped.
pub trait Hand: Drop {
    /// The worker as the pure step sees it.
    ghost worker: { Self → WorkerAt };

    /// Its parts fit each other.
    ghost sound: { Self → Type 0 };

    /// The new worker of a number, by a configuration. Its numbers begin with `first`.
    fn new(alloc: Global, me: u8, conf: &Config, first: u64) -> Result<Self, NoMemory>
        requires { me < conf.now.workers }
        ensures worker { IfOk result (λ hand. worker hand ≡ new_worker (setup_of conf.now first) me) }
        ensures sound { IfOk result (λ hand. sound hand) };

    /// Handles what comes, and gives the events of the step.
    fn handle(
        &mut self,
        conf: &Config,
        slots: &mut PlainSlots,
        input: Input<PlainHold>,
    ) -> Result<EventList, NoMemory>
        requires sound { sound self.old }
        requires fits { OwnerFits (row_at slots.old (me_of (worker self.old))).slots (worker self.old).owner }
        requires right { IsRight ⟦<PlainSlots as Slots>⟧.held conf.now.workers (me_of (worker self.old)) input }
        ensures sound { OnOk result (sound self.new) }
        ensures handled { IfOk result (λ told. (first : ℕ) → IsHandled true (setup_of conf.now first) (me_of (worker self.old)) (incoming_of input)
            (seat_in (worker self.old) (me_of (worker self.old)) slots.old) told.events (seat_in (worker self.new) (me_of (worker self.old)) slots.new)) }
        ensures others { OnOk result ((o : ℕ) → o ≢ me_of (worker self.old) → (row_at slots.new o).slots ≡ (row_at slots.old o).slots) };

    /// Whether one of its counters stands at 2^63 or more, of packets to so many workers or of what else it numbers.
    fn is_worn(&self, workers: u8) -> bool
        ensures { result ≡ is_worn workers (worker self.now) };

    /// How many packets to a worker wait to be carried.
    fn waiting(&self, to: u8) -> usize
        ensures { result ≡ length ((worker self.now).outbox to) };

    /// Takes the first packet to a worker. None comes exactly where none waits.
    fn next_packet(&mut self, to: u8) -> Option<Packet<PlainHold>>
        requires { sound self.old }
        ensures none { IfNone result ((worker self.old).outbox to ≡ []) }
        ensures first { IfSome result (λ packet. (worker self.old).outbox to ≡ told_packet packet ∷ drop 1 ((worker self.old).outbox to)) }
        ensures between { IfSome result (IsBetween ⟦<PlainSlots as Slots>⟧.held (me_of (worker self.old)) to) }
        ensures rest { worker self.new ≡ record (worker self.old) { outbox = with_at (worker self.old).outbox to (drop 1 ((worker self.old).outbox to)) } }
        ensures sound { sound self.new };
}

//! Workers.
ghost use Rattle.std.specs.Prelude.{◌≡◌, ◌<◌, ◌∷◌, [], ℕ, OnOk, IfOk, IfErr, OnErr, IfNone, IfSome, true, false, length, drop};
ghost use Rattle.nc_owner.specs.Pool.{SameOthers};
ghost use Rattle.nc_owner_laws.specs.OwnerFits.{OwnerFits};
ghost use Rattle.nc_worker_state.specs.Setup.{setup_of};
ghost use Rattle.nc_worker_state.specs.Incoming.{incoming_of, told_packet};
ghost use Rattle.nc_worker_state.specs.Worker.{IsHandled, is_worn, is_worn_number, any_worn, new_worker, with_at};
ghost use Rattle.nc_outbox.specs.Outboxes.{next_of, IsOwn};
ghost use Rattle.nc_worker.specs.Input.{IsInput};
ghost use Rattle.nc_worker.specs.declared.worker.HandleRefusal.TheVariants as refusals;
ghost use Rattle.nc_worker.specs.Parts.{me_of, seat_of, worker_of};
ghost use Rattle.nc_worker.specs.Worker.{IsWorker, IsKept, refused_as, LeavesAs};

use crate::parts::Parts;
use crate::step::step;
use nc_alert::Packet;
use nc_desk::Desk;
use nc_journal::EventList;
use nc_owner::Owner;
use nc_scribe::Scribe;
use nc_slots::Slots;
use nc_types::{Config, NoMemory};
use nc_worker_state::Input;
use std::alloc::Global;

/// Why an input wasn't handled.
#[derive(Clone, Copy, Debug, PartialEq, Eq)]
pub enum HandleRefusal {
    /// There was no memory, or no number was left. The worker is spent.
    NoMemory,
    /// There was no memory at an earlier input.
    Spent,
    /// Half of the numbers of one of its counters are drawn. Nothing changes.
    Worn,
}

impl From<NoMemory> for HandleRefusal {
    ghost from_gives = { λ _ e. e ≡ refusals.NoMemory };

    fn from(_: NoMemory) -> Self {
        HandleRefusal::NoMemory
    }
}

/// A worker: the owner of its channels, its own requests and subscribers, and the packets that it made and that weren't carried yet.
///
/// After want of memory it is spent: each further input is refused.
#[derive(Drop)]
pub struct Worker<P: Slots> {
    alloc: Global,
    workers: u8,
    parts: Parts<P::Hold>,
    spent: bool,
}

/// Whether half of the numbers of 64 bits are drawn before this one.
fn is_worn_number(number: u64) -> bool
    ensures { result ≡ is_worn_number number }
{
    number >= 1 << 63
}

/// Whether it is so of the packets to one of the workers below a number.
fn any_worn<H: Drop>(scribe: &Scribe<H>, workers: u8) -> bool
    ensures { result ≡ any_worn workers (next_of scribe.now.outboxes) }
{
    let mut worn = false;
    for to in 0..workers {
        worn = worn || is_worn_number(scribe.number(to));
    }
    worn
}

impl<P: Slots> Worker<P> {
    /// The new worker of a number, by a configuration. Its numbers begin with `first`.
    pub fn new(alloc: Global, me: u8, conf: &Config, first: u64) -> Worker<P>
        requires { me < conf.now.workers }
        ensures worker { worker_of result.parts ≡ new_worker (setup_of conf.now first) me }
        ensures sound { IsWorker P.held result.parts }
        ensures workers { result.workers ≡ conf.now.workers }
        ensures ready { result.spent ≡ false }
    {
        let workers = conf.workers;
        Worker {
            alloc,
            workers,
            parts: Parts {
                owner: Owner::new(alloc, me, workers, conf.slots, first),
                desk: Desk::new(alloc, workers, first),
                scribe: Scribe::new(alloc, me, first),
            },
            spent: false,
        }
    }

    /// Whether one of its counters stands at 2^63 or more, of packets to so many workers or of what else it numbers.
    pub fn is_worn(&self, workers: u8) -> bool
        ensures { result ≡ is_worn workers (worker_of self.now.parts) }
    {
        is_worn_number(self.parts.desk.looks())
            || is_worn_number(self.parts.owner.looks())
            || is_worn_number(self.parts.owner.grants())
            || is_worn_number(self.parts.desk.requests())
            || any_worn(&self.parts.scribe, workers)
    }

    /// Whether one of its counters stands at 2^63 or more.
    pub fn worn(&self) -> bool
        ensures { result ≡ is_worn self.now.workers (worker_of self.now.parts) }
    {
        self.is_worn(self.workers)
    }

    /// How many packets to a worker wait.
    pub fn waiting(&self, to: u8) -> usize
        ensures { result ≡ length ((worker_of self.now.parts).outbox to) }
    {
        self.parts.scribe.waiting(to)
    }

    /// Takes the first packet to a worker. None comes exactly where none waits.
    pub fn next_packet(&mut self, to: u8) -> Option<Packet<P::Hold>>
        requires sound { IsKept P.held self.old.spent self.old.parts }
        ensures none { IfNone result ((worker_of self.old.parts).outbox to ≡ []) }
        ensures first { IfSome result (λ packet. (worker_of self.old.parts).outbox to
            ≡ told_packet packet ∷ drop 1 ((worker_of self.old.parts).outbox to)) }
        ensures own { self.old.spent ≡ false → IfSome result (IsOwn P.held (me_of self.old.parts) to) }
        ensures rest { worker_of self.new.parts ≡ record (worker_of self.old.parts) {
          outbox = with_at (worker_of self.old.parts).outbox to
              (drop 1 ((worker_of self.old.parts).outbox to));
        } }
        ensures sound { IsKept P.held self.new.spent self.new.parts }
        ensures workers { self.new.workers ≡ self.old.workers }
        ensures spent { self.new.spent ≡ self.old.spent }
    {
        self.parts.scribe.take(to)
    }

    /// What an input leads to, for a caller that asked before whether the worker is worn. After `NoMemory` it is spent.
    /// `NoMemory` comes also where a number isn't left.
    pub fn handle_unchecked(
        &mut self,
        pool: &mut P,
        conf: &Config,
        input: Input<P::Hold>,
    ) -> Result<EventList, NoMemory>
        requires ready { self.old.spent ≡ false }
        requires sound { IsKept P.held self.old.spent self.old.parts }
        requires fits { OwnerFits (P.slots pool.old (me_of self.old.parts)) self.old.parts.owner }
        requires input { IsInput P.held conf.now.workers (me_of self.old.parts) input }
        ensures handled { IfOk result (λ list. (first : ℕ) → IsHandled P.exact (setup_of conf.now first) (me_of self.old.parts) (incoming_of input)
            (seat_of (P.slots pool.old) (P.holds pool.old) self.old.parts) list.events (seat_of (P.slots pool.new) (P.holds pool.new) self.new.parts)) }
        ensures others { OnOk result (SameOthers (me_of self.old.parts) (P.slots pool.old) (P.slots pool.new)) }
        ensures fits { OnOk result (OwnerFits (P.slots pool.new (me_of self.old.parts)) self.new.parts.owner) }
        ensures me { OnOk result (me_of self.new.parts ≡ me_of self.old.parts) }
        ensures sound { IsKept P.held self.new.spent self.new.parts }
        ensures ready { OnOk result (self.new.spent ≡ false) }
        ensures spent { OnErr result (self.new.spent ≡ true) }
        ensures workers { self.new.workers ≡ self.old.workers }
    {
        self.spent = true;
        let list = step(self.alloc, &mut self.parts, pool, conf, input)?;
        self.spent = false;
        Ok(list)
    }

    /// What an input leads to. `Spent` comes exactly where the worker was spent, `Worn` exactly where it is worn and not spent;
    /// nothing changes then. After `NoMemory` it is spent, which comes also where a number isn't left.
    pub fn handle(
        &mut self,
        pool: &mut P,
        conf: &Config,
        input: Input<P::Hold>,
    ) -> Result<EventList, HandleRefusal>
        requires sound { IsKept P.held self.old.spent self.old.parts }
        requires fits { self.old.spent ≡ false → OwnerFits (P.slots pool.old (me_of self.old.parts)) self.old.parts.owner }
        requires input { IsInput P.held conf.now.workers (me_of self.old.parts) input }
        ensures can { OnOk result ((self.old.spent ≡ false) × (is_worn self.old.workers (worker_of self.old.parts) ≡ false)) }
        ensures handled { IfOk result (λ list. (first : ℕ) → IsHandled P.exact (setup_of conf.now first) (me_of self.old.parts) (incoming_of input)
            (seat_of (P.slots pool.old) (P.holds pool.old) self.old.parts) list.events (seat_of (P.slots pool.new) (P.holds pool.new) self.new.parts)) }
        ensures others { OnOk result (SameOthers (me_of self.old.parts) (P.slots pool.old) (P.slots pool.new)) }
        ensures fits { OnOk result (OwnerFits (P.slots pool.new (me_of self.old.parts)) self.new.parts.owner) }
        ensures me { OnOk result (me_of self.new.parts ≡ me_of self.old.parts) }
        ensures sound { IsKept P.held self.new.spent self.new.parts }
        ensures ready { OnOk result (self.new.spent ≡ false) }
        ensures refused { IfErr result (λ refusal. refusal ≡ refused_as self.old.spent (is_worn self.old.workers (worker_of self.old.parts))) }
        ensures left { IfErr result (λ refusal. LeavesAs refusal self.new.spent self.old self.new pool.old pool.new) }
        ensures workers { self.new.workers ≡ self.old.workers }
    {
        if self.spent {
            return Err(HandleRefusal::Spent);
        }
        if self.worn() {
            return Err(HandleRefusal::Worn);
        }
        let list = self.handle_unchecked(pool, conf, input)?;
        Ok(list)
    }
}

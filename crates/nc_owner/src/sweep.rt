//! What an owner does without being asked: channels are touched and go where nothing is left of them, and retired slots are polled.
ghost use Rattle.std.specs.Prelude.{◌≡◌, ◌&&◌, IfOk, OnOk, true, List as Items};
ghost use Rattle.nc_owner.specs.declared.poll.PollAnswer.{PollAnswer as AnswerAt};
ghost use Rattle.nc_owner.specs.AlertLines.{out_lines};
ghost use Rattle.nc_owner.specs.Pool.{SameOthers};
ghost use Rattle.nc_owner.specs.Remove.{is_idle, sweep_after, sweep_alerts, sweep_events, sweep_row};
ghost use Rattle.nc_owner.specs.Rules.{FreesOnlyRetired, FreesUnheld, IsFresh};
ghost use Rattle.nc_owner.specs.Sweep.{IsPolled};

use crate::channel::Channel;
use crate::done::Done;
use crate::owner::Owner;
use crate::poll::poll_retired;
use nc_journal::{EventList, RemovedCause};
use nc_slots::Slots;
use nc_types::{ChanName, List, NoMemory};

/// Whether a channel that was touched is to go.
fn is_reaped(existed: bool, channel: &Channel) -> bool
    ensures { result ≡ (existed && is_idle channel.now) }
{
    existed && channel.is_idle()
}

impl Owner {
    /// Touches a channel: its expired entries leave. Where it then keeps no message and has no member, it goes, and each worker that waits
    /// there is told. Where there is no such channel, nothing happens.
    pub fn sweep_one<P: Slots>(
        &mut self,
        pool: &mut P,
        chan: &ChanName,
    ) -> Result<Done<P::Hold>, NoMemory>
        ensures events { IfOk result (λ done. done.events.events ≡ sweep_events chan.now (P.slots pool.old self.old.desk.me) self.old) }
        ensures alerts { IfOk result (λ done. out_lines done.alerts ≡ sweep_alerts chan.now (P.slots pool.old self.old.desk.me) self.old) }
        ensures owner { OnOk result (self.new ≡ sweep_after chan.now (P.slots pool.old self.old.desk.me) self.old) }
        ensures slots { OnOk result (P.slots pool.new self.old.desk.me ≡ sweep_row chan.now (P.slots pool.old self.old.desk.me) self.old) }
        ensures others { OnOk result (SameOthers self.old.desk.me (P.slots pool.old) (P.slots pool.new)) }
        ensures holds { OnOk result (P.exact ≡ true → P.holds pool.new ≡ P.holds pool.old) }
        ensures fresh { OnOk result (IsFresh chan.now self.new) }
    {
        let name = chan.copied()?;
        let mut events = List::new(self.alloc);
        let (channel, existed) = self.open(pool, chan, &mut events)?;
        let goes = is_reaped(existed, &channel);
        self.close(name, channel, existed)?;
        let alerts = self.remove_if(pool, chan, goes, RemovedCause::Reaped, &mut events)?;
        Ok(Done {
            events: EventList { events },
            alerts,
        })
    }

    /// Polls all retired slots in ascending order: those that nobody holds are unused from then on.
    pub fn poll_retired<P: Slots>(&mut self, pool: &mut P) -> Result<EventList, NoMemory>
        ensures polled { IfOk result (λ list. (answers : Items AnswerAt)
            × IsPolled P.exact (P.holds pool.old self.old.desk.me) answers (P.slots pool.old self.old.desk.me) self.old list.events
            (P.slots pool.new self.old.desk.me) self.new) }
        ensures others { OnOk result (SameOthers self.old.desk.me (P.slots pool.old) (P.slots pool.new)) }
        ensures holds { OnOk result (P.exact ≡ true → P.holds pool.new ≡ P.holds pool.old) }
        ensures retired { IfOk result (λ list. FreesOnlyRetired self.old.desk.retired list.events) }
        ensures freed { IfOk result (λ list. P.exact ≡ true → FreesUnheld (P.holds pool.old self.old.desk.me) list.events) }
    {
        let mut events = List::new(self.alloc);
        poll_retired(self.alloc, &mut self.desk, pool, &mut events)?;
        Ok(EventList { events })
    }
}

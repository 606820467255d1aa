//! A channel is removed: all that it keeps leaves, and those who belong to it or wait there are told.
ghost use Rattle.std.specs.Prelude.{◌≡◌, ◌∷◌, ◌++◌, [], IfOk, OnOk, None, true};
ghost use Rattle.nc_owner.specs.AlertLines.{out_line, out_lines};
ghost use Rattle.nc_owner.specs.Edge.{last_in};
ghost use Rattle.nc_owner.specs.Pool.{SameOthers};
ghost use Rattle.nc_owner.specs.Remove.{after_removal, alerts_of_removal, events_of_removal, gone_line, gones, removal_alerts, removal_events, removed_after, removed_row, row_of_removal};
ghost use Rattle.nc_owner.specs.Rules.{IsFresh};
ghost use Rattle.nc_owner.specs.State.{found};

use crate::channel::Channel;
use crate::leave::leave_all;
use crate::owner::Owner;
use crate::shelf::take_out;
use nc_alert::{Alert, Outgoing};
use nc_journal::{Event, RemovedCause};
use nc_slots::Slots;
use nc_types::{ChanName, List, NoMemory};
use std::alloc::Global;

/// Tells a worker that a channel is gone, with the worker's members of it.
fn tell_one<H: Drop>(
    alloc: Global,
    name: &ChanName,
    channel: &Channel,
    worker: u8,
) -> Result<Outgoing<H>, NoMemory>
    ensures { IfOk result (λ out. out_line out ≡ gone_line name.now channel.now.members worker) }
{
    let c = name.copied()?;
    let subs = channel.members.numbers_of(alloc, worker)?;
    Ok(Outgoing {
        to: worker,
        alert: Alert::Gone { c, subs },
    })
}

/// Tells each worker that has a member of a channel or waits there that the channel is gone.
fn tell_gone<H: Drop>(
    alloc: Global,
    name: &ChanName,
    channel: &Channel,
) -> Result<List<Outgoing<H>>, NoMemory>
    ensures { IfOk result (λ alerts. out_lines alerts ≡ gones name.now channel.now) }
{
    let marked = channel.marks.copied()?;
    let workers = channel.members.with_workers(alloc, marked)?;
    let mut alerts = List::new(alloc);
    for worker in workers.as_slice() {
        let out = tell_one(alloc, name, channel, *worker)?;
        alerts.push(out)?;
    }
    Ok(alerts)
}

impl Owner {
    /// Removes a channel that was touched: all that it keeps leaves, its last id is spent, and those whom it concerns are told.
    fn remove<P: Slots>(
        &mut self,
        pool: &mut P,
        name: &ChanName,
        cause: RemovedCause,
        events: &mut List<Event>,
    ) -> Result<List<Outgoing<P::Hold>>, NoMemory>
        ensures events { OnOk result (events.new ≡ events.old ++ removal_events name.now cause self.old) }
        ensures alerts { IfOk result (λ alerts. out_lines alerts ≡ removal_alerts name.now self.old) }
        ensures owner { OnOk result (self.new ≡ removed_after name.now (last_in name.now self.old) self.old) }
        ensures slots { OnOk result (P.slots pool.new self.old.desk.me ≡ removed_row name.now (P.slots pool.old self.old.desk.me) self.old) }
        ensures gone { OnOk result (found name.now self.new ≡ None) }
        ensures others { OnOk result (SameOthers self.old.desk.me (P.slots pool.old) (P.slots pool.new)) }
        ensures holds { OnOk result (P.exact ≡ true → P.holds pool.new ≡ P.holds pool.old) }
    {
        let (mut channel, _) = take_out(self.alloc, &mut self.channels, &self.desk, name);
        let last = channel.backlog.last();
        let alerts = tell_gone(self.alloc, name, &channel)?;
        leave_all(self.alloc, &mut self.desk, pool, name, &mut channel, events)?;
        events.push(Event::Removed {
            w: u64::from(self.desk.me),
            c: name.copied()?,
            last,
            cause,
        })?;
        self.desk.spend(last);
        Ok(alerts)
    }

    /// Removes a channel that was touched, where it is to go.
    pub(crate) fn remove_if<P: Slots>(
        &mut self,
        pool: &mut P,
        name: &ChanName,
        goes: bool,
        cause: RemovedCause,
        events: &mut List<Event>,
    ) -> Result<List<Outgoing<P::Hold>>, NoMemory>
        ensures events { OnOk result (events.new ≡ events.old ++ events_of_removal goes cause name.now self.old) }
        ensures alerts { IfOk result (λ alerts. out_lines alerts ≡ alerts_of_removal goes name.now self.old) }
        ensures owner { OnOk result (self.new ≡ after_removal goes name.now self.old) }
        ensures slots { OnOk result (P.slots pool.new self.old.desk.me ≡ row_of_removal goes name.now (P.slots pool.old self.old.desk.me) self.old) }
        ensures fresh { OnOk result (IsFresh name.now self.old → IsFresh name.now self.new) }
        ensures others { OnOk result (SameOthers self.old.desk.me (P.slots pool.old) (P.slots pool.new)) }
        ensures holds { OnOk result (P.exact ≡ true → P.holds pool.new ≡ P.holds pool.old) }
    {
        if !goes {
            return Ok(List::new(self.alloc));
        }
        let alerts = self.remove(pool, name, cause, events)?;
        Ok(alerts)
    }
}

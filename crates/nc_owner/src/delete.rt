//! Deletions: a channel goes because somebody asks for it.
ghost use Rattle.std.specs.Prelude.{◌≡◌, IfOk, OnOk, true, Some, None, if◌then◌else◌};
ghost use Rattle.nc_journal.specs.declared.alert.AlertLine.TheVariants.{DelAnswer};
ghost use Rattle.nc_owner.specs.AlertLines.{alert_line, out_lines};
ghost use Rattle.nc_owner.specs.Pool.{SameOthers};
ghost use Rattle.nc_owner.specs.Publish.{info_of};
ghost use Rattle.nc_owner.specs.Remove.{delete_after, delete_alerts, delete_events, delete_row};
ghost use Rattle.nc_owner.specs.Rules.{IsFresh};

use crate::channel::Channel;
use crate::done::Done;
use crate::owner::Owner;
use nc_alert::{Alert, Outgoing};
use nc_journal::{EventList, RemovedCause};
use nc_slots::Slots;
use nc_types::{ChanName, List, NoMemory};

/// The answer to request `r`: 200 with what is told of the channel, or 404 where it didn't exist.
fn answer<H: Drop>(r: u64, existed: bool, channel: &Channel) -> Result<Alert<H>, NoMemory>
    ensures { IfOk result (λ alert. alert_line alert ≡ (if existed then DelAnswer r 200 (Some (info_of channel.now)) else DelAnswer r 404 None)) }
{
    if !existed {
        return Ok(Alert::DelAnswer {
            r,
            status: 404,
            info: None,
        });
    }
    let info = channel.info()?;
    Ok(Alert::DelAnswer {
        r,
        status: 200,
        info: Some(info),
    })
}

impl Owner {
    /// Removes a channel, as request `r` of worker `from` asks, and answers what it had: 200, or 404 where there is none.
    ///
    /// All its messages leave, and each worker that has a member of it or waits there is told that it is gone.
    pub fn delete<P: Slots>(
        &mut self,
        pool: &mut P,
        from: u8,
        r: u64,
        chan: ChanName,
    ) -> Result<Done<P::Hold>, NoMemory>
        ensures events { IfOk result (λ done. done.events.events ≡ delete_events chan (P.slots pool.old self.old.desk.me) self.old) }
        ensures alerts { IfOk result (λ done. out_lines done.alerts ≡ delete_alerts from r chan (P.slots pool.old self.old.desk.me) self.old) }
        ensures owner { OnOk result (self.new ≡ delete_after chan (P.slots pool.old self.old.desk.me) self.old) }
        ensures slots { OnOk result (P.slots pool.new self.old.desk.me ≡ delete_row chan (P.slots pool.old self.old.desk.me) self.old) }
        ensures others { OnOk result (SameOthers self.old.desk.me (P.slots pool.old) (P.slots pool.new)) }
        ensures holds { OnOk result (P.exact ≡ true → P.holds pool.new ≡ P.holds pool.old) }
        ensures fresh { OnOk result (IsFresh chan self.new) }
    {
        let name = chan.copied()?;
        let mut events = List::new(self.alloc);
        let (channel, existed) = self.open(pool, &chan, &mut events)?;
        let alert = answer(r, existed, &channel)?;
        self.close(name, channel, existed)?;
        let mut alerts = self.remove_if(pool, &chan, existed, RemovedCause::Deleted, &mut events)?;
        alerts.push(Outgoing { to: from, alert })?;
        Ok(Done {
            events: EventList { events },
            alerts,
        })
    }
}

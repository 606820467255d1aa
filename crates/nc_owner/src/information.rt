//! What is told of a channel.
ghost use Rattle.std.specs.Prelude.{◌≡◌, IfOk, OnOk, true, Some, None, if◌then◌else◌};
ghost use Rattle.nc_journal.specs.declared.alert.AlertLine.TheVariants.{InfoAnswer};
ghost use Rattle.nc_owner.specs.OtherSteps.{info_alerts, touch_after, touch_events_of, touched_row};
ghost use Rattle.nc_owner.specs.AlertLines.{alert_line, out_lines};
ghost use Rattle.nc_owner.specs.Pool.{SameOthers};
ghost use Rattle.nc_owner.specs.Publish.{info_of};
ghost use Rattle.nc_owner.specs.Rules.{IsFresh};

use crate::channel::Channel;
use crate::done::Done;
use crate::owner::Owner;
use nc_alert::{Alert, Outgoing};
use nc_journal::EventList;
use nc_slots::Slots;
use nc_types::{ChanName, List, NoMemory};

/// The answer to request `r`: 200 with what is told of the channel, or 404 where it didn't exist.
fn answer<H: Drop>(r: u64, existed: bool, channel: &Channel) -> Result<Alert<H>, NoMemory>
    ensures { IfOk result (λ alert. alert_line alert ≡ (if existed then InfoAnswer r 200 (Some (info_of channel.now)) else InfoAnswer r 404 None)) }
{
    if !existed {
        return Ok(Alert::InfoAnswer {
            r,
            status: 404,
            info: None,
        });
    }
    let info = channel.info()?;
    Ok(Alert::InfoAnswer {
        r,
        status: 200,
        info: Some(info),
    })
}

impl Owner {
    /// Answers request `r` of worker `from` what is told of a channel: 200, or 404 where there is none.
    pub fn info<P: Slots>(
        &mut self,
        pool: &mut P,
        from: u8,
        r: u64,
        chan: ChanName,
    ) -> Result<Done<P::Hold>, NoMemory>
        ensures events { IfOk result (λ done. done.events.events ≡ touch_events_of chan (P.slots pool.old self.old.desk.me) self.old) }
        ensures alerts { IfOk result (λ done. out_lines done.alerts ≡ info_alerts from r chan (P.slots pool.old self.old.desk.me) self.old) }
        ensures owner { OnOk result (self.new ≡ touch_after chan (P.slots pool.old self.old.desk.me) self.old) }
        ensures slots { OnOk result (P.slots pool.new self.old.desk.me ≡ touched_row chan (P.slots pool.old self.old.desk.me) self.old) }
        ensures others { OnOk result (SameOthers self.old.desk.me (P.slots pool.old) (P.slots pool.new)) }
        ensures holds { OnOk result (P.exact ≡ true → P.holds pool.new ≡ P.holds pool.old) }
        ensures fresh { OnOk result (IsFresh chan self.new) }
    {
        let mut events = List::new(self.alloc);
        let (channel, existed) = self.open(pool, &chan, &mut events)?;
        let alert = answer(r, existed, &channel)?;
        self.close(chan, channel, existed)?;
        let mut alerts = List::new(self.alloc);
        alerts.push(Outgoing { to: from, alert })?;
        Ok(Done {
            events: EventList { events },
            alerts,
        })
    }
}

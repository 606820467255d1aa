//! Edges: how far a channel has come, for one who begins behind the newest message.
ghost use Rattle.std.specs.Prelude.{◌≡◌, ◌++◌, ◌∷◌, [], IfOk, OnOk, true};
ghost use Rattle.nc_owner.specs.AlertLines.{out_line, out_lines};
ghost use Rattle.nc_owner.specs.Edge.{last_in, edged, edged_event, edge_line, edge_events, edge_alerts, edge_after};
ghost use Rattle.nc_owner.specs.Fence.{with_floor, raise_events};
ghost use Rattle.nc_owner.specs.OtherSteps.{touched_row};
ghost use Rattle.nc_owner.specs.Pool.{SameOthers};
ghost use Rattle.nc_owner.specs.Rules.{IsFresh};

use crate::done::Done;
use crate::owner::Owner;
use nc_alert::{Alert, Outgoing};
use nc_journal::{Event, EventList};
use nc_slots::Slots;
use nc_types::{ChanName, List, MsgId, NoMemory};

impl Owner {
    /// The last id of a channel; of one that isn't there the spent id.
    fn last(&self, chan: &ChanName) -> MsgId
        ensures { result ≡ last_in chan.now self.now }
    {
        match self.channels.get(chan) {
            Some(channel) => channel.backlog.last(),
            None => self.desk.spent,
        }
    }

    /// Tells an edge of a channel as it stands, and answers it.
    fn tell_edge<H: Drop>(
        &mut self,
        from: u8,
        number: u64,
        k: u64,
        chan: ChanName,
        events: &mut List<Event>,
    ) -> Result<Outgoing<H>, NoMemory>
        ensures events { OnOk result (events.new ≡ events.old ++ edged_event from number k chan self.old ∷ []) }
        ensures alert { IfOk result (λ out. out_line out ≡ edge_line from number chan self.old) }
        ensures owner { OnOk result (self.new ≡ edged self.old) }
    {
        let q = self.desk.looks;
        let Some(looks) = q.checked_add(1) else {
            return Err(NoMemory);
        };
        let floor = self.desk.floor;
        let last = self.last(&chan);
        events.push(Event::Edged {
            w: u64::from(self.desk.me),
            q,
            from: u64::from(from),
            no: number,
            k,
            c: chan,
            floor,
            last,
        })?;
        self.desk.looks = looks;
        Ok(Outgoing {
            to: from,
            alert: Alert::EdgeAnswer {
                no: number,
                q,
                floor,
                last,
            },
        })
    }

    /// Tells worker `from` how far a channel has come, for its subscriber `k` and by the edge that it calls `number`: the floor,
    /// which is raised to the fence first, and the channel's last id, or the spent id where there is no such channel.
    ///
    /// A channel that is there is touched; none is made. Edges and looks are numbered together.
    pub fn edge<P: Slots>(
        &mut self,
        pool: &mut P,
        from: u8,
        number: u64,
        k: u64,
        chan: ChanName,
        fence: u64,
    ) -> Result<Done<P::Hold>, NoMemory>
        ensures events { IfOk result (λ done. done.events.events
            ≡ raise_events fence self.old ++ edge_events from number k chan (P.slots pool.old self.old.desk.me) (with_floor fence self.old)) }
        ensures alerts { IfOk result (λ done. out_lines done.alerts
            ≡ edge_alerts from number chan (P.slots pool.old self.old.desk.me) (with_floor fence self.old)) }
        ensures owner { OnOk result (self.new ≡ edge_after chan (P.slots pool.old self.old.desk.me) (with_floor fence self.old)) }
        ensures slots { OnOk result (P.slots pool.new self.old.desk.me ≡ touched_row chan (P.slots pool.old self.old.desk.me) (with_floor fence self.old)) }
        ensures others { OnOk result (SameOthers self.old.desk.me (P.slots pool.old) (P.slots pool.new)) }
        ensures holds { OnOk result (P.exact ≡ true → P.holds pool.new ≡ P.holds pool.old) }
        ensures fresh { OnOk result (IsFresh chan self.new) }
    {
        let name = chan.copied()?;
        let mut events = List::new(self.alloc);
        self.raise_told(fence, &mut events)?;
        let (channel, existed) = self.open(pool, &chan, &mut events)?;
        self.close(name, channel, existed)?;
        let out = self.tell_edge(from, number, k, chan, &mut events)?;
        let mut alerts = List::new(self.alloc);
        alerts.push(out)?;
        Ok(Done {
            events: EventList { events },
            alerts,
        })
    }
}

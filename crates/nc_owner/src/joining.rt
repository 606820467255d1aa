//! Joins and parts: who is a member of a channel.
ghost use Rattle.std.specs.Prelude.{◌≡◌, ◌++◌, [], IfOk, OnOk, true};
ghost use Rattle.nc_owner.specs.OtherSteps.{join_events, join_after, part_events, part_after, parted_events, touched_row};
ghost use Rattle.nc_owner.specs.AlertLines.{out_lines};
ghost use Rattle.nc_owner.specs.Pool.{SameOthers};
ghost use Rattle.nc_owner.specs.Rules.{IsFresh};

use crate::channel::Channel;
use crate::done::Done;
use crate::member::Member;
use crate::owner::Owner;
use nc_journal::{Event, EventList};
use nc_slots::Slots;
use nc_types::{ChanName, List, NoMemory};

/// Tells that a subscriber parts, if it is a member.
fn tell_parted(
    w: u64,
    name: &ChanName,
    member: &Member,
    channel: &Channel,
    events: &mut List<Event>,
) -> Result<(), NoMemory>
    ensures { OnOk result (events.new ≡ events.old ++ parted_events w member.now name.now channel.now) }
{
    if !channel.members.contains(member) {
        return Ok(());
    }
    events.push(Event::Parted {
        w,
        c: name.copied()?,
        from: u64::from(member.from),
        k: member.k,
    })?;
    Ok(())
}

impl Owner {
    /// Subscriber `k` of worker `from` becomes a member of a channel, which is made if it isn't there.
    pub fn join<P: Slots>(
        &mut self,
        pool: &mut P,
        from: u8,
        chan: ChanName,
        k: u64,
    ) -> Result<Done<P::Hold>, NoMemory>
        ensures events { IfOk result (λ done. done.events.events
            ≡ join_events (record { from = from; k = k }) chan (P.slots pool.old self.old.desk.me) self.old) }
        ensures alerts { IfOk result (λ done. out_lines done.alerts ≡ []) }
        ensures owner { OnOk result (self.new ≡ join_after (record { from = from; k = k }) chan (P.slots pool.old self.old.desk.me) self.old) }
        ensures slots { OnOk result (P.slots pool.new self.old.desk.me ≡ touched_row chan (P.slots pool.old self.old.desk.me) self.old) }
        ensures others { OnOk result (SameOthers self.old.desk.me (P.slots pool.old) (P.slots pool.new)) }
        ensures holds { OnOk result (P.exact ≡ true → P.holds pool.new ≡ P.holds pool.old) }
        ensures fresh { OnOk result (IsFresh chan self.new) }
    {
        let w = u64::from(self.desk.me);
        let mut events = List::new(self.alloc);
        let (mut channel, _) = self.open(pool, &chan, &mut events)?;
        channel.members.insert(Member { from, k })?;
        events.push(Event::Joined {
            w,
            c: chan.copied()?,
            from: u64::from(from),
            k,
        })?;
        self.close(chan, channel, true)?;
        Ok(Done {
            events: EventList { events },
            alerts: List::new(self.alloc),
        })
    }

    /// Subscriber `k` of worker `from` is a member of a channel no longer, if it was one.
    pub fn part<P: Slots>(
        &mut self,
        pool: &mut P,
        from: u8,
        chan: ChanName,
        k: u64,
    ) -> Result<Done<P::Hold>, NoMemory>
        ensures events { IfOk result (λ done. done.events.events
            ≡ part_events (record { from = from; k = k }) chan (P.slots pool.old self.old.desk.me) self.old) }
        ensures alerts { IfOk result (λ done. out_lines done.alerts ≡ []) }
        ensures owner { OnOk result (self.new ≡ part_after (record { from = from; k = k }) chan (P.slots pool.old self.old.desk.me) self.old) }
        ensures slots { OnOk result (P.slots pool.new self.old.desk.me ≡ touched_row chan (P.slots pool.old self.old.desk.me) self.old) }
        ensures others { OnOk result (SameOthers self.old.desk.me (P.slots pool.old) (P.slots pool.new)) }
        ensures holds { OnOk result (P.exact ≡ true → P.holds pool.new ≡ P.holds pool.old) }
        ensures fresh { OnOk result (IsFresh chan self.new) }
    {
        let w = u64::from(self.desk.me);
        let mut events = List::new(self.alloc);
        let (mut channel, existed) = self.open(pool, &chan, &mut events)?;
        let member = Member { from, k };
        tell_parted(w, &chan, &member, &channel, &mut events)?;
        channel.members.remove(&member);
        self.close(chan, channel, existed)?;
        Ok(Done {
            events: EventList { events },
            alerts: List::new(self.alloc),
        })
    }
}

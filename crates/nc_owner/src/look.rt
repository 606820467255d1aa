//! Looks: the first message past an id is found, or the worker is to be told of the next one.
ghost use Rattle.std.specs.Prelude.{◌≡◌, ◌<◌, ◌≤◌, ◌∷◌, ◌++◌, ◌+◌, [], IfOk, OnOk, IfSome, true, Some, None, find, length};
ghost use Rattle.nc_types.specs.Message.{Message};
ghost use Rattle.nc_buffer.specs.Buffer.{is_spent, first_past};
ghost use Rattle.nc_buffer.specs.Laws.{entry_past};
ghost use Rattle.nc_slots.specs.Slot.{slot_at, message_of};
ghost use Rattle.nc_journal.specs.declared.event.Event.TheVariants.{Granted};
ghost use Rattle.std.specs.List.{AllByRecursion};
ghost use Rattle.nc_owner.specs.OtherSteps.{touched_of};
ghost use Rattle.nc_owner.specs.TouchedLook.{CarriesFound, CarriesSeen, seen, seen_events, seen_line, seen_holds};
ghost use Rattle.nc_owner.specs.Holds.{IsHoldOf};
ghost use Rattle.nc_owner.specs.Leave.{spend_events, without_spent};
ghost use Rattle.nc_owner.specs.AlertLines.{out_line, out_lines};
ghost use Rattle.nc_owner.specs.Fence.{with_floor, raise_events};
ghost use Rattle.nc_owner.specs.Look.{counted_at, id_of, found_on, found_line, found_holds, answered_events, answered, look_events, look_alerts, look_after, look_row, look_holds};
ghost use Rattle.nc_owner.specs.Pool.{SameOthers};
ghost use Rattle.nc_owner.specs.Publish.{granted_slot, one_hold};
ghost use Rattle.nc_owner.specs.Rules.{IsFresh, NoneExpired, TellsFirst};
ghost use Rattle.nc_owner.specs.State.{bench_from, entries_of};
ghost use Rattle.std.specs.Option.{option_map};

use crate::backlog::Backlog;
use crate::channel::Channel;
use crate::desk::Desk;
use crate::done::Done;
use crate::leave::leave;
use crate::marks::mark;
use crate::owner::Owner;
use nc_alert::{Alert, Grant, Outgoing};
use nc_buffer::Entry;
use nc_buffer::laws::{can_grant, look_finds};
use nc_journal::{Event, EventList, LeftCause};
use nc_slots::Slots;
use nc_types::{ChanName, List, MsgId, NoMemory};
use std::alloc::Global;

/// What a look asks for: the first message past an id, by the look that worker `from` calls `number`.
#[derive(Clone, Copy)]
pub(crate) struct Asked {
    pub from: u8,
    pub number: u64,
    pub after: MsgId,
}

/// The entries that can't be granted once more leave.
fn spend<P: Slots>(
    alloc: Global,
    desk: &mut Desk,
    pool: &mut P,
    name: &ChanName,
    channel: &mut Channel,
    events: &mut List<Event>,
) -> Result<(), NoMemory>
    ensures events { OnOk result (events.new ≡ events.old ++ spend_events name.now (bench_from desk.old (P.slots pool.old desk.old.me) channel.old)) }
    ensures bench { OnOk result (bench_from desk.new (P.slots pool.new desk.old.me) channel.new
        ≡ without_spent (bench_from desk.old (P.slots pool.old desk.old.me) channel.old)) }
    ensures none { OnOk result (find is_spent channel.new.backlog.entries ≡ None) }
    ensures others { OnOk result (SameOthers desk.old.me (P.slots pool.old) (P.slots pool.new)) }
    ensures holds { OnOk result (P.exact ≡ true → P.holds pool.new ≡ P.holds pool.old) }
{
    while let Some(entry) = channel.backlog.spent_one() {
        leave(alloc, desk, pool, name, &entry, LeftCause::Spent, events)?;
    }
    Ok(())
}

/// The oldest entry past an id, of which one grant more is counted.
fn find_past(backlog: &mut Backlog, after: &MsgId) -> Option<Entry>
    requires { find is_spent backlog.old.entries ≡ None }
    ensures found { result ≡ entry_past after.now backlog.old.entries }
    ensures counted { backlog.new ≡ record backlog.old { entries = counted_at (first_past after.now backlog.old.entries) backlog.old.entries } }
{
    can_grant();
    look_finds();
    let place = backlog.first_past(after)?;
    let entry = backlog.entry(place);
    backlog.count_grant(place);
    Some(entry)
}

/// The id of what was found.
fn id_of(entry: &Option<Entry>) -> Option<MsgId>
    ensures { result ≡ option_map id_of entry.now }
{
    match entry {
        Some(entry) => Some(entry.id),
        None => None,
    }
}

/// Grants a hold of an entry's message to a worker.
fn grant_one<P: Slots>(
    desk: &mut Desk,
    pool: &mut P,
    entry: &Entry,
    to: u8,
    events: &mut List<Event>,
) -> Result<Grant<P::Hold>, NoMemory>
    ensures events { OnOk result (events.new ≡ events.old ++ Granted desk.old.me desk.old.grants entry.now.slot to ∷ []) }
    ensures grant { IfOk result (λ g. (g.id ≡ entry.now.id) × (g.g ≡ desk.old.grants) × (g.slot ≡ entry.now.slot)) }
    ensures hold { IfOk result (λ g. (m : Message)
        → message_of (slot_at (P.slots pool.old desk.old.me) entry.now.slot) ≡ Some m → IsHoldOf P.held desk.old.me m g) }
    ensures desk { OnOk result (desk.new ≡ record desk.old { grants = desk.old.grants + 1 }) }
    ensures row { OnOk result (P.slots pool.new desk.old.me ≡ granted_slot entry.now.slot (P.slots pool.old desk.old.me) to) }
    ensures others { OnOk result (SameOthers desk.old.me (P.slots pool.old) (P.slots pool.new)) }
    ensures holds { OnOk result (P.exact ≡ true → P.holds pool.new desk.old.me ≡ one_hold entry.now.slot (P.holds pool.old desk.old.me) to) }
    ensures other_holds { OnOk result (P.exact ≡ true → SameOthers desk.old.me (P.holds pool.old) (P.holds pool.new)) }
{
    let g = desk.grants;
    let Some(next) = g.checked_add(1) else {
        return Err(NoMemory);
    };
    let hold = pool.grant(desk.me, entry.slot)?;
    desk.grants = next;
    events.push(Event::Granted {
        w: u64::from(desk.me),
        g,
        slot: u64::from(entry.slot),
        to: u64::from(to),
    })?;
    Ok(Grant {
        id: entry.id,
        g,
        slot: entry.slot,
        hold,
    })
}

/// Answers a look at a channel of which each entry can be granted once more.
fn answer<P: Slots>(
    alloc: Global,
    desk: &mut Desk,
    pool: &mut P,
    asked: &Asked,
    name: &ChanName,
    channel: &mut Channel,
    events: &mut List<Event>,
) -> Result<Outgoing<P::Hold>, NoMemory>
    requires { find is_spent channel.old.backlog.entries ≡ None }
    ensures events { OnOk result (events.new ≡ events.old
        ++ answered_events asked.now.from asked.now.number name.now asked.now.after (bench_from desk.old (P.slots pool.old desk.old.me) channel.old)) }
    ensures alert { IfOk result (λ out. out_line out
        ≡ found_line asked.now.from asked.now.number (entry_past asked.now.after channel.old.backlog.entries) desk.old) }
    ensures bench { OnOk result (bench_from desk.new (P.slots pool.new desk.old.me) channel.new
        ≡ answered asked.now.from asked.now.after (bench_from desk.old (P.slots pool.old desk.old.me) channel.old)) }
    ensures carries { IfOk result (λ out. CarriesFound P.held desk.old.me (P.slots pool.old desk.old.me)
        (entry_past asked.now.after channel.old.backlog.entries) out) }
    ensures others { OnOk result (SameOthers desk.old.me (P.slots pool.old) (P.slots pool.new)) }
    ensures holds { OnOk result (P.exact ≡ true
        → P.holds pool.new desk.old.me
        ≡ found_holds asked.now.from (entry_past asked.now.after channel.old.backlog.entries) (P.holds pool.old desk.old.me)) }
    ensures other_holds { OnOk result (P.exact ≡ true → SameOthers desk.old.me (P.holds pool.old) (P.holds pool.new)) }
{
    let q = desk.looks;
    let Some(looks) = q.checked_add(1) else {
        return Err(NoMemory);
    };
    let entry = find_past(&mut channel.backlog, &asked.after);
    events.push(Event::Looked {
        w: u64::from(desk.me),
        q,
        from: u64::from(asked.from),
        no: asked.number,
        c: name.copied()?,
        after: asked.after,
        floor: desk.floor,
        found: id_of(&entry),
    })?;
    desk.looks = looks;
    let found = match entry {
        Some(entry) => Some(grant_one(desk, pool, &entry, asked.from, events)?),
        None => {
            mark(alloc, &mut channel.marks, asked.from)?;
            None
        }
    };
    Ok(Outgoing {
        to: asked.from,
        alert: Alert::LookAnswer {
            no: asked.number,
            q,
            floor: desk.floor,
            found,
        },
    })
}

/// A look at a channel that was touched.
fn look_at<P: Slots>(
    alloc: Global,
    desk: &mut Desk,
    pool: &mut P,
    asked: &Asked,
    name: &ChanName,
    channel: &mut Channel,
    events: &mut List<Event>,
) -> Result<Outgoing<P::Hold>, NoMemory>
    ensures events { OnOk result (events.new ≡ events.old
        ++ seen_events asked.now.from asked.now.number name.now asked.now.after (bench_from desk.old (P.slots pool.old desk.old.me) channel.old)) }
    ensures alert { IfOk result (λ out. out_line out
        ≡ seen_line asked.now.from asked.now.number asked.now.after (bench_from desk.old (P.slots pool.old desk.old.me) channel.old)) }
    ensures bench { OnOk result (bench_from desk.new (P.slots pool.new desk.old.me) channel.new
        ≡ seen asked.now.from asked.now.after (bench_from desk.old (P.slots pool.old desk.old.me) channel.old)) }
    ensures carries { IfOk result (λ out. CarriesSeen P.held asked.now.after (bench_from desk.old (P.slots pool.old desk.old.me) channel.old) out) }
    ensures others { OnOk result (SameOthers desk.old.me (P.slots pool.old) (P.slots pool.new)) }
    ensures holds { OnOk result (P.exact ≡ true
        → P.holds pool.new desk.old.me
        ≡ seen_holds asked.now.from asked.now.after (bench_from desk.old (P.slots pool.old desk.old.me) channel.old) (P.holds pool.old desk.old.me)) }
    ensures other_holds { OnOk result (P.exact ≡ true → SameOthers desk.old.me (P.holds pool.old) (P.holds pool.new)) }
    ensures fresh { OnOk result (NoneExpired desk.old.clock channel.old.backlog.entries → NoneExpired desk.new.clock channel.new.backlog.entries) }
{
    spend(alloc, desk, pool, name, channel, events)?;
    let out = answer(alloc, desk, pool, asked, name, channel, events)?;
    Ok(out)
}

impl Owner {
    /// Looks for the first message of a channel past an id, behind the events that were told before.
    fn look_past<P: Slots>(
        &mut self,
        pool: &mut P,
        asked: &Asked,
        chan: ChanName,
        mut events: List<Event>,
    ) -> Result<Done<P::Hold>, NoMemory>
        ensures events { IfOk result (λ done. done.events.events
            ≡ events ++ look_events asked.now.from asked.now.number chan asked.now.after (P.slots pool.old self.old.desk.me) self.old) }
        ensures alerts { IfOk result (λ done. out_lines done.alerts
            ≡ look_alerts asked.now.from asked.now.number chan asked.now.after (P.slots pool.old self.old.desk.me) self.old) }
        ensures owner { OnOk result (self.new ≡ look_after asked.now.from chan asked.now.after (P.slots pool.old self.old.desk.me) self.old) }
        ensures slots { OnOk result (P.slots pool.new self.old.desk.me
            ≡ look_row asked.now.from chan asked.now.after (P.slots pool.old self.old.desk.me) self.old) }
        ensures carries { IfOk result (λ done. AllByRecursion (CarriesSeen P.held asked.now.after
            (touched_of chan (P.slots pool.old self.old.desk.me) self.old)) done.alerts) }
        ensures others { OnOk result (SameOthers self.old.desk.me (P.slots pool.old) (P.slots pool.new)) }
        ensures holds { OnOk result (P.exact ≡ true
            → P.holds pool.new self.old.desk.me
            ≡ look_holds asked.now.from chan asked.now.after (P.slots pool.old self.old.desk.me) self.old (P.holds pool.old self.old.desk.me)) }
        ensures other_holds { OnOk result (P.exact ≡ true → SameOthers self.old.desk.me (P.holds pool.old) (P.holds pool.new)) }
        ensures first { IfOk result (λ done. TellsFirst asked.now.after (touched_of chan (P.slots pool.old self.old.desk.me) self.old)
            (out_lines done.alerts)) }
        ensures fresh { OnOk result (IsFresh chan self.new) }
    {
        let (mut channel, _) = self.open(pool, &chan, &mut events)?;
        let alloc = self.alloc;
        let out = look_at(
            alloc,
            &mut self.desk,
            pool,
            asked,
            &chan,
            &mut channel,
            &mut events,
        )?;
        self.close(chan, channel, true)?;
        let mut alerts = List::new(alloc);
        alerts.push(out)?;
        Ok(Done {
            events: EventList { events },
            alerts,
        })
    }

    /// Looks for the first message of a channel past an id, for the look that worker `from` calls `number`, once the floor was raised
    /// to the fence.
    ///
    /// The channel is made if it isn't there. Where there is no such message, the worker is told of the next one.
    pub fn look<P: Slots>(
        &mut self,
        pool: &mut P,
        from: u8,
        number: u64,
        chan: ChanName,
        after: MsgId,
        fence: u64,
    ) -> Result<Done<P::Hold>, NoMemory>
        ensures events { IfOk result (λ done. done.events.events
            ≡ raise_events fence self.old ++ look_events from number chan after (P.slots pool.old self.old.desk.me) (with_floor fence self.old)) }
        ensures alerts { IfOk result (λ done. out_lines done.alerts
            ≡ look_alerts from number chan after (P.slots pool.old self.old.desk.me) (with_floor fence self.old)) }
        ensures owner { OnOk result (self.new ≡ look_after from chan after (P.slots pool.old self.old.desk.me) (with_floor fence self.old)) }
        ensures slots { OnOk result (P.slots pool.new self.old.desk.me
            ≡ look_row from chan after (P.slots pool.old self.old.desk.me) (with_floor fence self.old)) }
        ensures carries { IfOk result (λ done. AllByRecursion (CarriesSeen P.held after
            (touched_of chan (P.slots pool.old self.old.desk.me) (with_floor fence self.old))) done.alerts) }
        ensures others { OnOk result (SameOthers self.old.desk.me (P.slots pool.old) (P.slots pool.new)) }
        ensures holds { OnOk result (P.exact ≡ true
            → P.holds pool.new self.old.desk.me
            ≡ look_holds from chan after (P.slots pool.old self.old.desk.me) (with_floor fence self.old) (P.holds pool.old self.old.desk.me)) }
        ensures other_holds { OnOk result (P.exact ≡ true → SameOthers self.old.desk.me (P.holds pool.old) (P.holds pool.new)) }
        ensures first { IfOk result (λ done. TellsFirst after (touched_of chan (P.slots pool.old self.old.desk.me) (with_floor fence self.old))
            (out_lines done.alerts)) }
        ensures fresh { OnOk result (IsFresh chan self.new) }
    {
        let mut events = List::new(self.alloc);
        self.raise_told(fence, &mut events)?;
        let asked = Asked {
            from,
            number,
            after,
        };
        let done = self.look_past(pool, &asked, chan, events)?;
        Ok(done)
    }
}

//! Entries leave a channel, and their slots are retired.
ghost use Rattle.std.specs.Prelude.{◌≡◌, ◌∷◌, ◌++◌, [], OnOk, true, fold, map};
ghost use Rattle.nc_journal.specs.declared.word.LeftCause.TheVariants.{Deleted as ByDeletion};
ghost use Rattle.nc_owner.specs.Leave.{left_by, left_event, left_desk, left_row, touch_events, touched, shed_events, shed};
ghost use Rattle.nc_owner.specs.Pool.{SameOthers};
ghost use Rattle.nc_owner.specs.State.{bench_from};

use crate::channel::Channel;
use crate::desk::Desk;
use nc_buffer::Entry;
use nc_journal::{Event, LeftCause};
use nc_slots::Slots;
use nc_types::{ChanName, List, NoMemory};
use std::alloc::Global;

/// An entry leaves, and its slot is retired.
pub(crate) fn leave<P: Slots>(
    alloc: Global,
    desk: &mut Desk,
    pool: &mut P,
    name: &ChanName,
    entry: &Entry,
    cause: LeftCause,
    events: &mut List<Event>,
) -> Result<(), NoMemory>
    ensures events { OnOk result (events.new ≡ events.old ++ left_event desk.old.me name.now cause entry.now ∷ []) }
    ensures desk { OnOk result (desk.new ≡ left_desk desk.old entry.now) }
    ensures row { OnOk result (P.slots pool.new desk.old.me ≡ left_row (P.slots pool.old desk.old.me) entry.now) }
    ensures others { OnOk result (SameOthers desk.old.me (P.slots pool.old) (P.slots pool.new)) }
    ensures holds { OnOk result (P.exact ≡ true → P.holds pool.new ≡ P.holds pool.old) }
{
    events.push(Event::Left {
        w: u64::from(desk.me),
        c: name.copied()?,
        id: entry.id,
        slot: u64::from(entry.slot),
        cause,
    })?;
    pool.retire(desk.me, entry.slot);
    desk.buffered = desk.buffered.saturating_sub(1);
    desk.retire(alloc, entry.slot)?;
    Ok(())
}

/// A channel is touched: its expired entries leave.
pub(crate) fn touch<P: Slots>(
    alloc: Global,
    desk: &mut Desk,
    pool: &mut P,
    name: &ChanName,
    channel: &mut Channel,
    events: &mut List<Event>,
) -> Result<(), NoMemory>
    ensures events { OnOk result (events.new ≡ events.old ++ touch_events name.now (bench_from desk.old (P.slots pool.old desk.old.me) channel.old)) }
    ensures bench { OnOk result (bench_from desk.new (P.slots pool.new desk.old.me) channel.new
        ≡ touched (bench_from desk.old (P.slots pool.old desk.old.me) channel.old)) }
    ensures others { OnOk result (SameOthers desk.old.me (P.slots pool.old) (P.slots pool.new)) }
    ensures holds { OnOk result (P.exact ≡ true → P.holds pool.new ≡ P.holds pool.old) }
{
    let now = desk.clock.seconds();
    while let Some(entry) = channel.backlog.expire_one(now) {
        leave(alloc, desk, pool, name, &entry, LeftCause::Expired, events)?;
    }
    Ok(())
}

/// So many of the oldest entries leave.
pub(crate) fn shed<P: Slots>(
    alloc: Global,
    desk: &mut Desk,
    pool: &mut P,
    name: &ChanName,
    channel: &mut Channel,
    count: usize,
    cause: LeftCause,
    events: &mut List<Event>,
) -> Result<(), NoMemory>
    ensures events { OnOk result (events.new
        ≡ events.old ++ shed_events cause count name.now (bench_from desk.old (P.slots pool.old desk.old.me) channel.old)) }
    ensures bench { OnOk result (bench_from desk.new (P.slots pool.new desk.old.me) channel.new
        ≡ shed count (bench_from desk.old (P.slots pool.old desk.old.me) channel.old)) }
    ensures others { OnOk result (SameOthers desk.old.me (P.slots pool.old) (P.slots pool.new)) }
    ensures holds { OnOk result (P.exact ≡ true → P.holds pool.new ≡ P.holds pool.old) }
{
    let mut left = count;
    while left > 0 {
        let Some(entry) = channel.backlog.drop_oldest() else {
            return Ok(());
        };
        leave(alloc, desk, pool, name, &entry, cause, events)?;
        left -= 1;
    }
    Ok(())
}

/// All entries leave, the oldest first, since the channel is to go.
pub(crate) fn leave_all<P: Slots>(
    alloc: Global,
    desk: &mut Desk,
    pool: &mut P,
    name: &ChanName,
    channel: &mut Channel,
    events: &mut List<Event>,
) -> Result<(), NoMemory>
    ensures events { OnOk result (events.new ≡ events.old ++ map (left_event desk.old.me name.now ByDeletion) channel.old.backlog.entries) }
    ensures desk { OnOk result (desk.new ≡ left_by channel.old.backlog.entries desk.old) }
    ensures row { OnOk result (P.slots pool.new desk.old.me ≡ fold left_row (P.slots pool.old desk.old.me) channel.old.backlog.entries) }
    ensures others { OnOk result (SameOthers desk.old.me (P.slots pool.old) (P.slots pool.new)) }
    ensures holds { OnOk result (P.exact ≡ true → P.holds pool.new ≡ P.holds pool.old) }
{
    let count = channel.backlog.len();
    shed(
        alloc,
        desk,
        pool,
        name,
        channel,
        count,
        LeftCause::Deleted,
        events,
    )?;
    Ok(())
}

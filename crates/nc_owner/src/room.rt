//! Room for a message: the oldest entries of its channel are to leave.
ghost use Rattle.std.specs.Prelude.{◌≡◌, ◌++◌, ◌-◌, ◌≤◌, length, IfOk, OnOk, true, map, take, []};
ghost use Rattle.nc_owner.specs.Ascending.{ascending};
ghost use Rattle.nc_owner.specs.Poll.{AnswersFit, polled_all, slot_of, told_answer};
ghost use Rattle.nc_owner.specs.Pool.{SameOthers};
ghost use Rattle.nc_owner.specs.Publish.{leaving, leaving_count, left_slots, roomy, roomy_events, slots_of, usage_of};
ghost use Rattle.nc_owner.specs.State.{bench_from};

use crate::ascending::ascending;
use crate::backlog::Backlog;
use crate::channel::Channel;
use crate::desk::Desk;
use crate::leave::shed;
use crate::poll::{PollAnswer, free_some, held_count, poll_each};
use nc_journal::{Event, LeftCause};
use nc_slots::Slots;
use nc_types::{ChanName, FullLine, List, NoMemory};
use std::alloc::Global;

/// How many of the oldest entries leave where a channel is to keep at most so many, with one more to come.
fn leaving_count(backlog: &Backlog, most: u32) -> usize
    ensures count { result ≡ leaving_count most backlog.now.entries }
    ensures within { result ≤ length backlog.now.entries }
{
    backlog
        .len()
        .saturating_sub((most as usize).saturating_sub(1))
}

/// The slots of so many of the oldest entries.
fn slots_of(alloc: Global, backlog: &Backlog, count: usize) -> Result<Vec<u32>, NoMemory>
    requires { count ≤ length backlog.now.entries }
    ensures { IfOk result (λ slots. slots.items ≡ slots_of (take count backlog.now.entries)) }
{
    let mut slots = Vec::new(alloc);
    for place in 0..count {
        slots.push(backlog.entry(place).slot)?;
    }
    Ok(slots)
}

/// Polls the slots of the leaving entries, and counts the slots that stay in use.
pub(crate) fn count_usage<P: Slots>(
    alloc: Global,
    desk: &Desk,
    pool: &mut P,
    most: u32,
    channel: &Channel,
    first: &[PollAnswer],
) -> Result<(Vec<PollAnswer>, FullLine), NoMemory>
    ensures usage { IfOk result (λ r. r.1
        ≡ usage_of most (record { retired = first.now; leaving = r.0.items; left = [] }) (bench_from desk.now (P.slots pool.old desk.now.me) channel.now)) }
    ensures each { IfOk result (λ r. map slot_of r.0.items ≡ slots_of (leaving most (bench_from desk.now (P.slots pool.old desk.now.me) channel.now))) }
    ensures fit { IfOk result (λ r. AnswersFit (P.slots pool.old desk.now.me) r.0.items) }
    ensures told { IfOk result (λ r. P.exact ≡ true → r.0.items ≡ map (told_answer (P.holds pool.old desk.now.me))
        (slots_of (leaving most (bench_from desk.now (P.slots pool.old desk.now.me) channel.now)))) }
    ensures row { IfOk result (λ r. P.slots pool.new desk.now.me ≡ polled_all r.0.items (P.slots pool.old desk.now.me)) }
    ensures others { OnOk result (SameOthers desk.now.me (P.slots pool.old) (P.slots pool.new)) }
    ensures holds { OnOk result (P.exact ≡ true → P.holds pool.new ≡ P.holds pool.old) }
{
    let count = leaving_count(&channel.backlog, most);
    let slots = slots_of(alloc, &channel.backlog, count)?;
    let asked = poll_each(alloc, pool, desk.me, &slots)?;
    let usage = FullLine {
        buffered: u64::from(desk.buffered).saturating_sub(count as u64),
        held: held_count(first) as u64 + held_count(&asked) as u64,
    };
    Ok((asked, usage))
}

/// The leaving entries leave, and their slots are polled in ascending order.
pub(crate) fn make_room<P: Slots>(
    alloc: Global,
    desk: &mut Desk,
    pool: &mut P,
    name: &ChanName,
    most: u32,
    channel: &mut Channel,
    events: &mut List<Event>,
) -> Result<Vec<PollAnswer>, NoMemory>
    ensures events { IfOk result (λ a. events.new
        ≡ events.old ++ roomy_events most a.items name.now (bench_from desk.old (P.slots pool.old desk.old.me) channel.old)) }
    ensures bench { IfOk result (λ a. bench_from desk.new (P.slots pool.new desk.old.me) channel.new
        ≡ roomy most a.items (bench_from desk.old (P.slots pool.old desk.old.me) channel.old)) }
    ensures each { IfOk result (λ a. map slot_of a.items
        ≡ ascending (slots_of (leaving most (bench_from desk.old (P.slots pool.old desk.old.me) channel.old)))) }
    ensures fit { IfOk result (λ a. AnswersFit (left_slots most (bench_from desk.old (P.slots pool.old desk.old.me) channel.old)) a.items) }
    ensures told { IfOk result (λ a. P.exact ≡ true → a.items ≡ map (told_answer (P.holds pool.old desk.old.me))
        (ascending (slots_of (leaving most (bench_from desk.old (P.slots pool.old desk.old.me) channel.old))))) }
    ensures others { OnOk result (SameOthers desk.old.me (P.slots pool.old) (P.slots pool.new)) }
    ensures holds { OnOk result (P.exact ≡ true → P.holds pool.new ≡ P.holds pool.old) }
{
    let me = desk.me;
    let count = leaving_count(&channel.backlog, most);
    let slots = slots_of(alloc, &channel.backlog, count)?;
    let sorted = ascending(alloc, &slots)?;
    shed(
        alloc,
        desk,
        pool,
        name,
        channel,
        count,
        LeftCause::Length,
        events,
    )?;
    let answers = poll_each(alloc, pool, me, sorted.as_slice())?;
    free_some(alloc, desk, &answers, events)?;
    Ok(answers)
}

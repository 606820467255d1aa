//! A message is stored, and those who wait for it are told.
ghost use Rattle.std.specs.Prelude.{◌≡◌, ◌<◌, ◌≤◌, ◌∷◌, ◌++◌, [], IfOk, OnOk, true, fold, map, length, max, Some};
ghost use Rattle.nc_types.specs.Id.{IsPast, latest_clock};
ghost use Rattle.nc_types.specs.Message.{IsContentType};
ghost use Rattle.nc_journal.specs.Stamp.{expiry};
ghost use Rattle.nc_slots.specs.Slot.{lowest_unused};
ghost use Rattle.nc_owner.specs.Ascending.{ascending};
ghost use Rattle.nc_owner.specs.Holds.{AllCarry};
ghost use Rattle.nc_owner.specs.AlertLines.{out_lines};
ghost use Rattle.nc_owner.specs.Poll.{AnswersFit, slot_of, told_answer};
ghost use Rattle.nc_owner.specs.Pool.{SameOthers};
ghost use Rattle.nc_owner.specs.PublishClauses.{IsStored};
ghost use Rattle.nc_owner.specs.Publish.{kept_backlog, kept_desk, kept_row, leaving, left_slots, lowest_slot, message_of_order, notices, one_hold, slots_of, stamp, stored_bench, stored_events};
ghost use Rattle.nc_owner.specs.State.{bench_from};

use crate::channel::Channel;
use crate::desk::Desk;
use crate::done::Done;
use crate::news::{News, notify, put_message};
use crate::order::Order;
use crate::poll::PollAnswer;
use crate::room::make_room;
use nc_alert::{Alert, Outgoing};
use nc_buffer::Entry;
use nc_journal::{Event, EventList};
use nc_slots::Slots;
use nc_types::{List, MsgId, NoMemory};
use std::alloc::Global;

/// When a message expires that is stored now; 0 is never.
fn expiry(now: u64, timeout: u64) -> u64
    requires now { now ≤ latest_clock }
    requires timeout { timeout ≤ 1000000000 }
    ensures { result ≡ expiry now timeout }
{
    if timeout == 0 { 0 } else { now + timeout }
}

/// The message enters the buffer.
fn enter(desk: &mut Desk, news: &News, channel: &mut Channel) -> Result<(), NoMemory>
    requires { IsPast news.now.id channel.old.backlog.last }
    ensures desk { OnOk result (desk.new ≡ kept_desk true news.now.slot desk.old) }
    ensures channel { OnOk result (channel.new
        ≡ kept_backlog true (record { id = news.now.id; slot = news.now.slot; expires = news.now.expires; grants = length channel.old.marks }) channel.old) }
{
    let Ok(grants) = u32::try_from(channel.marks.len()) else {
        return Err(NoMemory);
    };
    let Some(buffered) = desk.buffered.checked_add(1) else {
        return Err(NoMemory);
    };
    channel.backlog.store(Entry {
        id: news.id,
        slot: news.slot,
        expires: news.expires,
        grants,
    })?;
    desk.buffered = buffered;
    Ok(())
}

/// The message enters the buffer, or, where it isn't kept, its slot is retired.
fn keep_or_retire<P: Slots>(
    alloc: Global,
    desk: &mut Desk,
    pool: &mut P,
    is_kept: bool,
    news: &News,
    channel: &mut Channel,
) -> Result<(), NoMemory>
    requires { IsPast news.now.id channel.old.backlog.last }
    ensures desk { OnOk result (desk.new ≡ kept_desk is_kept news.now.slot desk.old) }
    ensures row { OnOk result (P.slots pool.new desk.old.me ≡ kept_row is_kept news.now.slot (P.slots pool.old desk.old.me)) }
    ensures channel { OnOk result (channel.new ≡ kept_backlog is_kept
        (record { id = news.now.id; slot = news.now.slot; expires = news.now.expires; grants = length channel.old.marks }) channel.old) }
    ensures others { OnOk result (SameOthers desk.old.me (P.slots pool.old) (P.slots pool.new)) }
    ensures holds { OnOk result (P.exact ≡ true → P.holds pool.new ≡ P.holds pool.old) }
{
    if is_kept {
        enter(desk, news, channel)?;
        Ok(())
    } else {
        pool.retire(desk.me, news.slot);
        channel.backlog.pass(news.id);
        desk.retire(alloc, news.slot)?;
        Ok(())
    }
}

/// The floor is at least the message's time, the message is the channel's last, and nobody is marked any more.
fn conclude(alloc: Global, desk: &mut Desk, channel: &mut Channel, id: MsgId)
    ensures desk { desk.new ≡ record desk.old { floor = max desk.old.floor id.time } }
    ensures channel { channel.new ≡ record channel.old { latest = Some id; marks = [] } }
{
    desk.floor = desk.floor.max(id.time);
    channel.latest = Some(id);
    channel.marks = List::new(alloc);
}

/// The message takes a slot, and the marked workers are told of it.
fn store_message<P: Slots>(
    alloc: Global,
    desk: &mut Desk,
    pool: &mut P,
    from: u8,
    order: Order,
    id: MsgId,
    channel: &mut Channel,
    events: &mut List<Event>,
    alerts: &mut List<Outgoing<P::Hold>>,
) -> Result<(), NoMemory>
    requires timeout { order.timeout ≤ 1000000000 }
    requires content_type { IsContentType order.content_type }
    requires id { id ≡ stamp (bench_from desk.old (P.slots pool.old desk.old.me) channel.old) }
    ensures events { OnOk result (events.new ≡ events.old
        ++ stored_events from order (lowest_slot (P.slots pool.old desk.old.me)) (bench_from desk.old (P.slots pool.old desk.old.me) channel.old)) }
    ensures alerts { OnOk result (out_lines alerts.new
        ≡ out_lines alerts.old ++ notices order.chan id (lowest_slot (P.slots pool.old desk.old.me)) desk.old.grants channel.old.marks) }
    ensures bench { OnOk result (bench_from desk.new (P.slots pool.new desk.old.me) channel.new
        ≡ stored_bench order (lowest_slot (P.slots pool.old desk.old.me)) (bench_from desk.old (P.slots pool.old desk.old.me) channel.old)) }
    ensures taken { OnOk result (lowest_unused (P.slots pool.old desk.old.me) ≡ Some (lowest_slot (P.slots pool.old desk.old.me))) }
    ensures carries { OnOk result (AllCarry P.held desk.old.me (message_of_order id order desk.old.clock) alerts.old
        → AllCarry P.held desk.old.me (message_of_order id order desk.old.clock) alerts.new) }
    ensures others { OnOk result (SameOthers desk.old.me (P.slots pool.old) (P.slots pool.new)) }
    ensures holds { OnOk result (P.exact ≡ true
        → P.holds pool.new desk.old.me ≡ fold (one_hold (lowest_slot (P.slots pool.old desk.old.me))) (P.holds pool.old desk.old.me) channel.old.marks) }
    ensures other_holds { OnOk result (P.exact ≡ true → SameOthers desk.old.me (P.holds pool.old) (P.holds pool.new)) }
{
    let is_kept = order.length != 0;
    let expires = expiry(desk.clock.seconds(), order.timeout);
    let members = channel.members.len() as u64;
    let news = put_message(desk, pool, from, order, id, expires, members, events)?;
    notify(desk, pool, &news, channel.marks.as_slice(), events, alerts)?;
    keep_or_retire(alloc, desk, pool, is_kept, &news, channel)?;
    conclude(alloc, desk, channel, id);
    Ok(())
}

/// The leaving entries leave, the message is stored, and all are told. The polls of the slots that were left are answered too.
pub(crate) fn store<P: Slots>(
    alloc: Global,
    desk: &mut Desk,
    pool: &mut P,
    from: u8,
    order: Order,
    id: MsgId,
    channel: &mut Channel,
    events: List<Event>,
) -> Result<(Done<P::Hold>, Vec<PollAnswer>), NoMemory>
    requires timeout { order.timeout ≤ 1000000000 }
    requires content_type { IsContentType order.content_type }
    requires id { id ≡ stamp (bench_from desk.old (P.slots pool.old desk.old.me) channel.old) }
    ensures stored { IfOk result (λ r. IsStored P.held P.exact from desk.old.me order r.1.items
        (bench_from desk.old (P.slots pool.old desk.old.me) channel.old) (P.slots pool.old) (P.slots pool.new) (P.holds pool.old)
        (P.holds pool.new) events r.0.events.events r.0.alerts (bench_from desk.new (P.slots pool.new desk.old.me) channel.new)) }
    ensures each { IfOk result (λ r. map slot_of r.1.items
        ≡ ascending (slots_of (leaving order.length (bench_from desk.old (P.slots pool.old desk.old.me) channel.old)))) }
    ensures fit { IfOk result (λ r. AnswersFit (left_slots order.length (bench_from desk.old (P.slots pool.old desk.old.me) channel.old)) r.1.items) }
    ensures told { IfOk result (λ r. P.exact ≡ true → r.1.items ≡ map (told_answer (P.holds pool.old desk.old.me))
        (ascending (slots_of (leaving order.length (bench_from desk.old (P.slots pool.old desk.old.me) channel.old))))) }
{
    let mut events = events;
    let mut alerts = List::new(alloc);
    let r = order.r;
    let status = channel.stored_status();
    let left = make_room(
        alloc,
        desk,
        pool,
        &order.chan,
        order.length,
        channel,
        &mut events,
    )?;
    store_message(
        alloc,
        desk,
        pool,
        from,
        order,
        id,
        channel,
        &mut events,
        &mut alerts,
    )?;
    let info = channel.info()?;
    alerts.push(Outgoing {
        to: from,
        alert: Alert::PubAnswer {
            r,
            status,
            info: Some(info),
            full: None,
        },
    })?;
    let events = EventList { events };
    Ok((Done { events, alerts }, left))
}

//! A message is published.
ghost use Rattle.std.specs.Prelude.{◌≡◌, ◌≤◌, ◌∷◌, ◌++◌, [], IfOk, IfSome, OnOk, None, false, is_some, nat_le, true, map, max, ◌||◌};
ghost use Rattle.nc_types.specs.Id.{last_second};
ghost use Rattle.nc_types.specs.Message.{IsContentType};
ghost use Rattle.nc_journal.specs.Stamp.{next_id};
ghost use Rattle.nc_alert.specs.declared.alert.Alert.TheVariants.{PubAnswer};
ghost use Rattle.nc_owner.specs.Holds.{AllCarry};
ghost use Rattle.nc_owner.specs.AlertLines.{out_lines};
ghost use Rattle.nc_owner.specs.Pool.{SameOthers};
ghost use Rattle.nc_owner.specs.Poll.{AnswersFit, slot_of, told_answer};
ghost use Rattle.nc_owner.specs.PublishClauses.{Posts, Publishes};
ghost use Rattle.nc_owner.specs.Publish.{cleared, cleared_events, is_full, message_of_order, stamp};
ghost use Rattle.nc_owner.specs.Leave.{touched};
ghost use Rattle.nc_owner.specs.Rules.{IsFresh};
ghost use Rattle.nc_owner.specs.State.{bench_from, bench_of};

use crate::backlog::Backlog;
use crate::channel::Channel;
use crate::desk::Desk;
use crate::done::Done;
use crate::leave::touch;
use crate::order::Order;
use crate::poll::{PollAnswer, poll_retired};
use crate::room::count_usage;
use crate::shelf::{put_back, take_out};
use crate::store::store;
use nc_alert::{Alert, Outgoing};
use nc_journal::{Event, EventList};
use nc_slots::Slots;
use nc_types::{ChanName, FullLine, GREATEST_TIME, List, MsgId, NoMemory};
use std::alloc::Global;
use std::collections::BTreeMap;

/// The greatest tag of a message.
const GREATEST_TAG: i32 = 65_535;

/// What a publish did, and whether its message was stored.
#[derive(Drop)]
pub(crate) struct Posted<H> {
    pub is_stored: bool,
    pub done: Done<H>,
}

/// The id of the next message, where there is time left for it.
fn next_id(now: u64, last: &MsgId) -> Option<MsgId>
    ensures some { IfSome result (λ id. id ≡ next_id now last.now) }
    ensures fits { is_some result ≡ nat_le (next_id now last.now).time last_second }
{
    if last.time < now {
        if now > GREATEST_TIME {
            return None;
        }
        return Some(MsgId { time: now, tag: 0 });
    }
    if last.tag < GREATEST_TAG {
        return Some(MsgId {
            time: last.time,
            tag: last.tag + 1,
        });
    }
    if last.time < GREATEST_TIME {
        return Some(MsgId {
            time: last.time + 1,
            tag: 0,
        });
    }
    None
}

/// The stamp of a message, where there is time left for it.
fn stamp(desk: &Desk, backlog: &Backlog) -> Option<MsgId>
    ensures some { IfSome result (λ id. id ≡ next_id (max desk.now.clock desk.now.floor) backlog.now.last) }
    ensures fits { is_some result ≡ nat_le (next_id (max desk.now.clock desk.now.floor) backlog.now.last).time last_second }
{
    let now = desk.clock.seconds().max(desk.floor);
    next_id(now, &backlog.last())
}

/// Whether the slots in use are all that there are.
fn is_full(slots: u32, usage: &FullLine) -> bool
    ensures { result ≡ is_full slots usage.now }
{
    let slots = u64::from(slots);
    usage.buffered <= slots && slots - usage.buffered == usage.held
}

/// A publish whose message isn't stored.
fn refuse<H: Drop>(
    alloc: Global,
    from: u8,
    r: u64,
    status: u16,
    full: Option<FullLine>,
    events: List<Event>,
) -> Result<Posted<H>, NoMemory>
    ensures kind { IfOk result (λ p. p.is_stored ≡ false) }
    ensures events { IfOk result (λ p. p.done.events.events ≡ events) }
    ensures alerts { IfOk result (λ p. p.done.alerts ≡ record { to = from; alert = PubAnswer r status None full } ∷ []) }
{
    let mut alerts = List::new(alloc);
    alerts.push(Outgoing {
        to: from,
        alert: Alert::PubAnswer {
            r,
            status,
            info: None,
            full,
        },
    })?;
    let events = EventList { events };
    Ok(Posted {
        is_stored: false,
        done: Done { events, alerts },
    })
}

/// The rest of a publish, once its channel was touched and the retired slots were polled.
pub(crate) fn post<P: Slots>(
    alloc: Global,
    desk: &mut Desk,
    pool: &mut P,
    from: u8,
    order: Order,
    channel: &mut Channel,
    first: &[PollAnswer],
    events: List<Event>,
) -> Result<Posted<P::Hold>, NoMemory>
    requires timeout { order.timeout ≤ 1000000000 }
    requires content_type { IsContentType order.content_type }
    ensures posts { IfOk result (λ p. Posts P.exact from order first.now (bench_from desk.old (P.slots pool.old desk.old.me) channel.old)
        (P.holds pool.old desk.old.me) p.is_stored events p.done.events.events (out_lines p.done.alerts)
        (bench_from desk.new (P.slots pool.new desk.old.me) channel.new) (P.holds pool.new desk.old.me)) }
    ensures carries { IfOk result (λ p. AllCarry P.held desk.old.me (message_of_order
        (stamp (bench_from desk.old (P.slots pool.old desk.old.me) channel.old)) order desk.old.clock) p.done.alerts) }
    ensures others { OnOk result (SameOthers desk.old.me (P.slots pool.old) (P.slots pool.new)) }
    ensures other_holds { OnOk result (P.exact ≡ true → SameOthers desk.old.me (P.holds pool.old) (P.holds pool.new)) }
{
    let r = order.r;
    let Some(id) = stamp(desk, &channel.backlog) else {
        drop(order);
        let posted = refuse(alloc, from, r, 503, None, events)?;
        return Ok(posted);
    };
    let (_asked, usage) = count_usage(alloc, desk, pool, order.length, channel, first)?;
    if is_full(desk.slots, &usage) {
        drop(order);
        let posted = refuse(alloc, from, r, 507, Some(usage), events)?;
        return Ok(posted);
    }
    let (done, _left) = store(alloc, desk, pool, from, order, id, channel, events)?;
    Ok(Posted {
        is_stored: true,
        done,
    })
}

/// The channel is touched, and all retired slots are polled.
fn clear<P: Slots>(
    alloc: Global,
    desk: &mut Desk,
    pool: &mut P,
    name: &ChanName,
    channel: &mut Channel,
    events: &mut List<Event>,
) -> Result<Vec<PollAnswer>, NoMemory>
    ensures events { IfOk result (λ a. events.new
        ≡ events.old ++ cleared_events a.items name.now (bench_from desk.old (P.slots pool.old desk.old.me) channel.old)) }
    ensures bench { IfOk result (λ a. bench_from desk.new (P.slots pool.new desk.old.me) channel.new
        ≡ cleared a.items (bench_from desk.old (P.slots pool.old desk.old.me) channel.old)) }
    ensures each { IfOk result (λ a. map slot_of a.items ≡ (touched (bench_from desk.old (P.slots pool.old desk.old.me) channel.old)).desk.retired) }
    ensures fit { IfOk result (λ a. AnswersFit (touched (bench_from desk.old (P.slots pool.old desk.old.me) channel.old)).row a.items) }
    ensures told { IfOk result (λ a. P.exact ≡ true → a.items ≡ map (told_answer (P.holds pool.old desk.old.me))
        (touched (bench_from desk.old (P.slots pool.old desk.old.me) channel.old)).desk.retired) }
    ensures others { OnOk result (SameOthers desk.old.me (P.slots pool.old) (P.slots pool.new)) }
    ensures holds { OnOk result (P.exact ≡ true → P.holds pool.new ≡ P.holds pool.old) }
{
    touch(alloc, desk, pool, name, channel, events)?;
    let answers = poll_retired(alloc, desk, pool, events)?;
    Ok(answers)
}

/// Whether a channel exists after a publish.
fn stays(existed: bool, is_stored: bool) -> bool
    ensures { result ≡ (existed || is_stored) }
{
    existed || is_stored
}

/// A message is published to one of some channels.
pub(crate) fn publish_to<P: Slots>(
    alloc: Global,
    desk: &mut Desk,
    channels: &mut BTreeMap<ChanName, Channel>,
    pool: &mut P,
    from: u8,
    order: Order,
) -> Result<Done<P::Hold>, NoMemory>
    requires timeout { order.timeout ≤ 1000000000 }
    requires content_type { IsContentType order.content_type }
    ensures publishes { IfOk result (λ done. Publishes P.exact from order (P.slots pool.old desk.old.me)
        (record { desk = desk.old; channels = channels.old.entries }) (P.holds pool.old desk.old.me) done.events.events (out_lines done.alerts)
        (P.slots pool.new desk.old.me) (record { desk = desk.new; channels = channels.new.entries }) (P.holds pool.new desk.old.me)) }
    ensures fresh { OnOk result (IsFresh order.chan (record { desk = desk.new; channels = channels.new.entries })) }
    ensures carries { IfOk result (λ done. AllCarry P.held desk.old.me
        (message_of_order (stamp (bench_of order.chan (P.slots pool.old desk.old.me)
        (record { desk = desk.old; channels = channels.old.entries }))) order desk.old.clock) done.alerts) }
    ensures others { OnOk result (SameOthers desk.old.me (P.slots pool.old) (P.slots pool.new)) }
    ensures other_holds { OnOk result (P.exact ≡ true → SameOthers desk.old.me (P.holds pool.old) (P.holds pool.new)) }
{
    let name = order.chan.copied()?;
    let (mut channel, existed) = take_out(alloc, channels, desk, &name);
    let mut events = List::new(alloc);
    let first = clear(alloc, desk, pool, &name, &mut channel, &mut events)?;
    let posted = post(alloc, desk, pool, from, order, &mut channel, &first, events)?;
    let stays = stays(existed, posted.is_stored);
    put_back(channels, name, channel, stays)?;
    Ok(posted.done)
}

//! A stored message, and those who are told of it.
ghost use Rattle.std.specs.Prelude.{◌≡◌, ◌<◌, ◌≤◌, ◌∷◌, ◌++◌, [], OnOk, IfOk, true, Some, fold, length, slice_set};
ghost use Rattle.nc_types.specs.Message.{Message, IsContentType};
ghost use Rattle.nc_slots.specs.Slot.{slot_at, filled, lowest_unused, message_of as message_in};
ghost use Rattle.nc_journal.specs.Stamp.{expiry};
ghost use Rattle.nc_owner.specs.Holds.{AllCarry};
ghost use Rattle.nc_owner.specs.AlertLines.{out_lines};
ghost use Rattle.nc_owner.specs.Pool.{SameOthers};
ghost use Rattle.nc_owner.specs.Publish.{message_of_order, stored_event, lowest_slot, granted_slot, granted_desk, granted_events, notices, one_hold};

use crate::desk::Desk;
use crate::order::Order;
use nc_alert::{Alert, Grant, Outgoing};
use nc_journal::Event;
use nc_slots::Slots;
use nc_types::{Bytes, ChanName, List, Msg, MsgId, NoMemory};

/// A message that was stored: its channel, its id, its slot, and when it expires, where 0 is never.
#[derive(Drop)]
pub(crate) struct News {
    pub chan: ChanName,
    pub id: MsgId,
    pub slot: u32,
    pub expires: u64,
}

/// A content type once more.
fn copied(content_type: &Option<Bytes>) -> Result<Option<Bytes>, NoMemory>
    ensures { IfOk result (λ copy. copy ≡ content_type.now) }
{
    match content_type {
        Some(text) => {
            let text = text.copied()?;
            Ok(Some(text))
        }
        None => Ok(None),
    }
}

/// The message takes the lowest unused slot.
pub(crate) fn put_message<P: Slots>(
    desk: &Desk,
    pool: &mut P,
    from: u8,
    order: Order,
    id: MsgId,
    expires: u64,
    members: u64,
    events: &mut List<Event>,
) -> Result<News, NoMemory>
    requires expires { expires ≡ expiry desk.now.clock order.timeout }
    requires content_type { IsContentType order.content_type }
    ensures events { OnOk result (events.new
        ≡ events.old ++ stored_event from order id (lowest_slot (P.slots pool.old desk.now.me)) members desk.now ∷ []) }
    ensures news { IfOk result (λ n. n ≡ record { chan = order.chan; id = id; slot = lowest_slot (P.slots pool.old desk.now.me); expires = expires }) }
    ensures row { OnOk result (P.slots pool.new desk.now.me
        ≡ slice_set (P.slots pool.old desk.now.me) (lowest_slot (P.slots pool.old desk.now.me)) (filled (message_of_order id order desk.now.clock))) }
    ensures taken { OnOk result (lowest_unused (P.slots pool.old desk.now.me) ≡ Some (lowest_slot (P.slots pool.old desk.now.me))) }
    ensures others { OnOk result (SameOthers desk.now.me (P.slots pool.old) (P.slots pool.new)) }
    ensures holds { OnOk result (P.exact ≡ true → P.holds pool.new ≡ P.holds pool.old) }
{
    let kept = order.length != 0;
    let msg = Msg {
        id,
        body: order.body.copied()?,
        content_type: copied(&order.content_type)?,
        expires,
    };
    let Ok(slot) = pool.put(desk.me, msg) else {
        return Err(NoMemory);
    };
    events.push(Event::Stored {
        w: u64::from(desk.me),
        c: order.chan.copied()?,
        id,
        slot: u64::from(slot),
        len: u64::from(order.length),
        exp: expires,
        kept,
        members,
        from: u64::from(from),
        r: order.r,
        ct: order.content_type,
        body: order.body,
    })?;
    Ok(News {
        chan: order.chan,
        id,
        slot,
        expires,
    })
}

/// Grants a hold of the message to a marked worker, and tells it.
fn notify_one<P: Slots>(
    desk: &mut Desk,
    pool: &mut P,
    news: &News,
    to: u8,
    events: &mut List<Event>,
    alerts: &mut List<Outgoing<P::Hold>>,
) -> Result<(), NoMemory>
    ensures events { OnOk result (events.new ≡ events.old ++ granted_events desk.old.me news.now.slot desk.old.grants (to ∷ [])) }
    ensures alerts { OnOk result (out_lines alerts.new
        ≡ out_lines alerts.old ++ notices news.now.chan news.now.id news.now.slot desk.old.grants (to ∷ [])) }
    ensures desk { OnOk result (desk.new ≡ granted_desk (to ∷ []) desk.old) }
    ensures row { OnOk result (P.slots pool.new desk.old.me ≡ granted_slot news.now.slot (P.slots pool.old desk.old.me) to) }
    ensures message { OnOk result (message_in (slot_at (P.slots pool.new desk.old.me) news.now.slot)
        ≡ message_in (slot_at (P.slots pool.old desk.old.me) news.now.slot)) }
    ensures carries { OnOk result ((m : Message)
        → message_in (slot_at (P.slots pool.old desk.old.me) news.now.slot) ≡ Some m
        → AllCarry P.held desk.old.me m alerts.old → AllCarry P.held desk.old.me m alerts.new) }
    ensures others { OnOk result (SameOthers desk.old.me (P.slots pool.old) (P.slots pool.new)) }
    ensures holds { OnOk result (P.exact ≡ true → P.holds pool.new desk.old.me ≡ one_hold news.now.slot (P.holds pool.old desk.old.me) to) }
    ensures other_holds { OnOk result (P.exact ≡ true → SameOthers desk.old.me (P.holds pool.old) (P.holds pool.new)) }
{
    let g = desk.grants;
    let Some(next) = g.checked_add(1) else {
        return Err(NoMemory);
    };
    let hold = pool.grant(desk.me, news.slot)?;
    desk.grants = next;
    events.push(Event::Granted {
        w: u64::from(desk.me),
        g,
        slot: u64::from(news.slot),
        to: u64::from(to),
    })?;
    let found = Grant {
        id: news.id,
        g,
        slot: news.slot,
        hold,
    };
    let c = news.chan.copied()?;
    let alert = Alert::Notice { c, found };
    alerts.push(Outgoing { to, alert })?;
    Ok(())
}

/// Grants a hold of the message to each marked worker, and tells them.
pub(crate) fn notify<P: Slots>(
    desk: &mut Desk,
    pool: &mut P,
    news: &News,
    marks: &[u8],
    events: &mut List<Event>,
    alerts: &mut List<Outgoing<P::Hold>>,
) -> Result<(), NoMemory>
    ensures events { OnOk result (events.new ≡ events.old ++ granted_events desk.old.me news.now.slot desk.old.grants marks.now) }
    ensures alerts { OnOk result (out_lines alerts.new ≡ out_lines alerts.old ++ notices news.now.chan news.now.id news.now.slot desk.old.grants marks.now) }
    ensures desk { OnOk result (desk.new ≡ granted_desk marks.now desk.old) }
    ensures row { OnOk result (P.slots pool.new desk.old.me ≡ fold (granted_slot news.now.slot) (P.slots pool.old desk.old.me) marks.now) }
    ensures carries { OnOk result ((m : Message)
        → message_in (slot_at (P.slots pool.old desk.old.me) news.now.slot) ≡ Some m
        → AllCarry P.held desk.old.me m alerts.old → AllCarry P.held desk.old.me m alerts.new) }
    ensures others { OnOk result (SameOthers desk.old.me (P.slots pool.old) (P.slots pool.new)) }
    ensures holds { OnOk result (P.exact ≡ true → P.holds pool.new desk.old.me ≡ fold (one_hold news.now.slot) (P.holds pool.old desk.old.me) marks.now) }
    ensures other_holds { OnOk result (P.exact ≡ true → SameOthers desk.old.me (P.holds pool.old) (P.holds pool.new)) }
{
    for to in marks {
        notify_one(desk, pool, news, *to, events, alerts)?;
    }
    Ok(())
}

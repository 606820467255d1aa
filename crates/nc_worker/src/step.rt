//! One step of a worker: what an input leads to, and then the releases.
ghost use Rattle.std.specs.Prelude.{◌≡◌, ◌∷◌, [], ℕ, OnOk, IfOk, IfSome};
ghost use Rattle.nc_alert.specs.Packet.{grant_of};
ghost use Rattle.nc_owner.specs.AlertLines.{alert_line};
ghost use Rattle.nc_owner.specs.Moment.{IsClock};
ghost use Rattle.nc_owner.specs.Pool.{SameOthers};
ghost use Rattle.nc_owner_laws.specs.OwnerFits.{OwnerFits};
ghost use Rattle.nc_history.specs.Packets.{packet, kind_of as kind_of_line};
ghost use Rattle.nc_journal.specs.declared.event.Event.TheVariants.{Took, Clock};
ghost use Rattle.nc_slots.specs.Slots.{HoldAt};
ghost use Rattle.nc_owner.specs.OtherSteps.{with_clock};
ghost use Rattle.nc_scribe.specs.Scribe.{TellsMore, KeepsOwn};
ghost use Rattle.nc_outbox.specs.Outboxes.{IsGranted};
ghost use Rattle.nc_worker_state.specs.Setup.{setup_of};
ghost use Rattle.nc_worker_state.specs.Incoming.{TakesPacket, incoming_of, told_packet};
ghost use Rattle.nc_worker_state.specs.Desk.{handled, opening, begun};
ghost use Rattle.nc_worker_state.specs.Worker.{IsHandled};
ghost use Rattle.nc_desk.specs.Desk.{told_desk};
ghost use Rattle.nc_worker.specs.Input.{CanHear, IsInput};
ghost use Rattle.nc_worker.specs.Parts.{AreSound, Acts, me_of, seat_of};

use crate::parts::Parts;
use nc_alert::{Alert, Packet};
use nc_desk::release_idle;
use nc_journal::{Event, EventList};
use nc_outbox::kind_of;
use nc_owned::{delete, edge, inform, join, look, part, publish, sweep};
use nc_owner::Order;
use nc_slots::Slots;
use nc_types::{Config, NoMemory};
use nc_worker_state::Input;
use std::alloc::Global;

/// What an alert of worker `from` leads to: what is asked of an owner goes to the owner, and an answer to who asked.
fn hear<P: Slots>(
    parts: &mut Parts<P::Hold>,
    pool: &mut P,
    from: u8,
    alert: Alert<P::Hold>,
) -> Result<(), NoMemory>
    requires sound { AreSound P.held parts.old }
    requires fits { OwnerFits (P.slots pool.old (me_of parts.old)) parts.old.owner }
    requires limits { CanHear alert }
    requires granted { IfSome (grant_of alert) (IsGranted P.held from) }
    ensures { OnOk result ((n : ℕ) → Acts P.held P.exact (TakesPacket from (packet n (alert_line alert))) []
        (handled (me_of parts.old) from (alert_line alert) (told_desk parts.old.desk)) (P.slots pool.old) (P.slots pool.new) (P.holds pool.old)
        (P.holds pool.new) parts.old parts.new) }
{
    match alert {
        Alert::Publish {
            r,
            c,
            len,
            timeout,
            ct,
            body,
        } => {
            let order = Order {
                r,
                chan: c,
                length: len,
                timeout,
                content_type: ct,
                body,
            };
            publish(&mut parts.owner, pool, &mut parts.scribe, from, order)?;
            Ok(())
        }
        Alert::Look {
            no,
            c,
            after,
            fence,
        } => {
            look(
                &mut parts.owner,
                pool,
                &mut parts.scribe,
                from,
                no,
                c,
                after,
                fence,
            )?;
            Ok(())
        }
        Alert::Edge { no, k, c, fence } => {
            edge(
                &mut parts.owner,
                pool,
                &mut parts.scribe,
                from,
                no,
                k,
                c,
                fence,
            )?;
            Ok(())
        }
        Alert::Join { c, k } => {
            join(&mut parts.owner, pool, &mut parts.scribe, from, c, k)?;
            Ok(())
        }
        Alert::Part { c, k } => {
            part(&mut parts.owner, pool, &mut parts.scribe, from, c, k)?;
            Ok(())
        }
        Alert::Delete { r, c } => {
            delete(&mut parts.owner, pool, &mut parts.scribe, from, r, c)?;
            Ok(())
        }
        Alert::Info { r, c } => {
            inform(&mut parts.owner, pool, &mut parts.scribe, from, r, c)?;
            Ok(())
        }
        Alert::PubAnswer {
            r,
            status,
            info,
            full: _full,
        } => {
            parts.desk.replied(&mut parts.scribe, r, status, info)?;
            Ok(())
        }
        Alert::DelAnswer { r, status, info } => {
            parts.desk.replied(&mut parts.scribe, r, status, info)?;
            Ok(())
        }
        Alert::InfoAnswer { r, status, info } => {
            parts.desk.replied(&mut parts.scribe, r, status, info)?;
            Ok(())
        }
        Alert::LookAnswer {
            no,
            q,
            floor,
            found,
        } => {
            parts
                .desk
                .answered(&mut parts.scribe, from, no, q, floor, found)?;
            Ok(())
        }
        Alert::Notice { c, found } => {
            parts.desk.noticed(&mut parts.scribe, from, &c, found)?;
            Ok(())
        }
        Alert::EdgeAnswer { no, q, floor, last } => {
            parts.desk.edged(&mut parts.scribe, no, q, floor, last)?;
            Ok(())
        }
        Alert::Gone { c, subs } => {
            parts.desk.gone(&mut parts.scribe, &c, &subs)?;
            Ok(())
        }
    }
}

/// Takes a packet.
fn take<P: Slots>(
    parts: &mut Parts<P::Hold>,
    pool: &mut P,
    packet: Packet<P::Hold>,
) -> Result<(), NoMemory>
    requires sound { AreSound P.held parts.old }
    requires fits { OwnerFits (P.slots pool.old (me_of parts.old)) parts.old.owner }
    requires limits { CanHear packet.alert }
    requires granted { IfSome (grant_of packet.alert) (IsGranted P.held packet.from) }
    ensures { OnOk result (Acts P.held P.exact (TakesPacket packet.from (told_packet packet))
        (Took (me_of parts.old) packet.from packet.number (kind_of_line (alert_line packet.alert)) ∷ [])
        (handled (me_of parts.old) packet.from (alert_line packet.alert) (told_desk parts.old.desk)) (P.slots pool.old) (P.slots pool.new)
        (P.holds pool.old) (P.holds pool.new) parts.old parts.new) }
{
    parts.scribe.tell(Event::Took {
        w: u64::from(parts.scribe.me()),
        from: u64::from(packet.from),
        n: packet.number,
        a: kind_of(&packet.alert),
    })?;
    hear(parts, pool, packet.from, packet.alert)?;
    Ok(())
}

/// The clock reads a moment.
fn set_clock<H: Drop>(parts: &mut Parts<H>, now: u64) -> Result<(), NoMemory>
    requires { IsClock now }
    ensures owner { OnOk result (parts.new.owner ≡ with_clock now parts.old.owner) }
    ensures desk { OnOk result (parts.new.desk ≡ parts.old.desk) }
    ensures tells { OnOk result (TellsMore parts.old.scribe parts.new.scribe (Clock parts.old.scribe.me now ∷ [])) }
    ensures own { OnOk result ((held : H → HoldAt) → KeepsOwn held parts.old.scribe parts.new.scribe) }
{
    let w = u64::from(parts.scribe.me());
    parts.scribe.tell(Event::Clock { w, t: now })?;
    parts.owner.set_clock(now);
    Ok(())
}

/// What an input leads to, up to the releases.
fn begin<P: Slots>(
    alloc: Global,
    parts: &mut Parts<P::Hold>,
    pool: &mut P,
    conf: &Config,
    input: Input<P::Hold>,
) -> Result<(), NoMemory>
    requires sound { AreSound P.held parts.old }
    requires fits { OwnerFits (P.slots pool.old (me_of parts.old)) parts.old.owner }
    requires input { IsInput P.held conf.now.workers (me_of parts.old) input }
    ensures { OnOk result ((first : ℕ) → Acts P.held P.exact (incoming_of input)
        (opening (setup_of conf.now first) (me_of parts.old) (incoming_of input) (told_desk parts.old.desk))
        (begun (setup_of conf.now first) (me_of parts.old) (incoming_of input) (told_desk parts.old.desk)) (P.slots pool.old) (P.slots pool.new)
        (P.holds pool.old) (P.holds pool.new) parts.old parts.new) }
{
    match input {
        Input::Packet(packet) => {
            take(parts, pool, packet)?;
            Ok(())
        }
        Input::Clock(now) => {
            set_clock(parts, now)?;
            Ok(())
        }
        Input::Reap => {
            sweep(alloc, &mut parts.owner, pool, &mut parts.scribe)?;
            Ok(())
        }
        Input::Post { chan, body } => {
            parts.desk.post(alloc, &mut parts.scribe, conf, chan, body)?;
            Ok(())
        }
        Input::Poll { k, list, start } => {
            parts
                .desk
                .subscribe(alloc, &mut parts.scribe, conf, k, list, start)?;
            Ok(())
        }
        Input::Remove { chan } => {
            parts.desk.remove(alloc, &mut parts.scribe, conf, chan)?;
            Ok(())
        }
        Input::Inform { chan } => {
            parts.desk.inform(alloc, &mut parts.scribe, conf, chan)?;
            Ok(())
        }
    }
}

/// One step: what an input leads to, and then the releases.
pub(crate) fn step<P: Slots>(
    alloc: Global,
    parts: &mut Parts<P::Hold>,
    pool: &mut P,
    conf: &Config,
    input: Input<P::Hold>,
) -> Result<EventList, NoMemory>
    requires sound { AreSound P.held parts.old }
    requires fits { OwnerFits (P.slots pool.old (me_of parts.old)) parts.old.owner }
    requires input { IsInput P.held conf.now.workers (me_of parts.old) input }
    requires told { parts.old.scribe.events ≡ [] }
    ensures handled { IfOk result (λ list. (first : ℕ) → IsHandled P.exact (setup_of conf.now first) (me_of parts.old) (incoming_of input)
        (seat_of (P.slots pool.old) (P.holds pool.old) parts.old) list.events (seat_of (P.slots pool.new) (P.holds pool.new) parts.new)) }
    ensures others { OnOk result (SameOthers (me_of parts.old) (P.slots pool.old) (P.slots pool.new)) }
    ensures fits { OnOk result (OwnerFits (P.slots pool.new (me_of parts.old)) parts.new.owner) }
    ensures sound { OnOk result (AreSound P.held parts.new) }
    ensures me { OnOk result (me_of parts.new ≡ me_of parts.old) }
    ensures told { OnOk result (parts.new.scribe.events ≡ []) }
{
    begin(alloc, parts, pool, conf, input)?;
    release_idle(&mut parts.desk, pool, &mut parts.scribe)?;
    let events = parts.scribe.finish();
    Ok(EventList { events })
}

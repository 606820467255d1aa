//! A worker handles something.
ghost use Rattle.std.specs.Prelude.{◌≡◌, ◌<◌, ◌≤◌, ◌+◌, ◌++◌, IfOk, OnOk};
ghost use Rattle.nc_slots.specs.Plain.{row_at};
ghost use Rattle.nc_owner_laws.specs.OwnerFits.{OwnerFits};
ghost use Rattle.nc_worker_state.specs.Incoming.{incoming_of};
ghost use Rattle.nc_world.specs.Moves.{Handles};
ghost use Rattle.nc_world_views.specs.Seen.{waiting_count};
ghost use Rattle.nc_floor.specs.Hand.{me_of, IsRight};
ghost use Rattle.nc_floor.specs.Floor.{world_of, IsStaffed, HasMoved, HandsOver};

use crate::floor::Floor;
use crate::hand::Hand;
use nc_journal::{Event, EventList};
use nc_slots::{PlainHold, PlainSlots, Slots};
use nc_types::{Config, List, NoMemory};
use nc_worker_state::Input;

/// What a worker did, and how many packets waited with it before and do behind it.
#[derive(Drop)]
struct Step {
    told: EventList,
    waited: u64,
    waits: u64,
}

/// How many packets to so many workers wait with a worker. `NoMemory` comes also where there is no number for them.
fn waiting_of<W: Hand>(hand: &W, workers: u8) -> Result<u64, NoMemory>
    ensures { IfOk result (λ count. count ≡ waiting_count workers (W.worker hand.now)) }
{
    let mut count = 0u64;
    for to in 0..workers {
        let Some(more) = count.checked_add(hand.waiting(to) as u64) else {
            return Err(NoMemory);
        };
        count = more;
    }
    Ok(count)
}

/// How many packets are pending once so many wait with a worker, where there were `waited`.
fn recounted(pending: u64, waited: u64, waits: u64) -> Result<u64, NoMemory>
    requires { waited ≤ pending + waits }
    ensures { IfOk result (λ count. count + waited ≡ pending + waits) }
{
    let Some(all) = pending.checked_add(waits) else {
        return Err(NoMemory);
    };
    Ok(all - waited)
}

/// Puts some events behind others.
fn append(told: &mut List<Event>, events: EventList) -> Result<(), NoMemory>
    ensures { OnOk result (told.new ≡ told.old ++ events.events) }
{
    for event in events.events.into_vec() {
        told.push(event)?;
    }
    Ok(())
}

/// Hands a worker what comes to it.
fn hand_over<W: Hand>(
    hand: &mut W,
    conf: &Config,
    slots: &mut PlainSlots,
    input: Input<PlainHold>,
) -> Result<Step, NoMemory>
    requires sound { W.sound hand.old }
    requires fits { OwnerFits (row_at slots.old (me_of (W.worker hand.old))).slots (W.worker hand.old).owner }
    requires right { IsRight ⟦<PlainSlots as Slots>⟧.held conf.now.workers (me_of (W.worker hand.old)) input }
    ensures { IfOk result (λ step. HandsOver W.worker W.sound conf.now (incoming_of input)
        hand.old hand.new slots.old slots.new step.told.events step.waited step.waits) }
{
    let waited = waiting_of(hand, conf.workers)?;
    let told = hand.handle(conf, slots, input)?;
    let waits = waiting_of(hand, conf.workers)?;
    Ok(Step {
        told,
        waited,
        waits,
    })
}

/// Hands worker `w` what comes to it, tells its events, and counts its packets anew.
pub(crate) fn act<W: Hand>(
    floor: &mut Floor<W>,
    w: u8,
    input: Input<PlainHold>,
) -> Result<(), NoMemory>
    requires staffed { IsStaffed W.worker W.sound ⟦<PlainSlots as Slots>⟧.held floor.old }
    requires there { w < floor.old.conf.workers }
    requires me { me_of ((world_of W.worker floor.old).workers w) ≡ w }
    requires fits { OwnerFits ((world_of W.worker floor.old).rows w) ((world_of W.worker floor.old).workers w).owner }
    requires right { IsRight ⟦<PlainSlots as Slots>⟧.held floor.old.conf.workers w input }
    ensures staffed { OnOk result (IsStaffed W.worker W.sound ⟦<PlainSlots as Slots>⟧.held floor.new) }
    ensures moved { OnOk result (HasMoved W.worker (Handles w (incoming_of input)) floor.old floor.new) }
{
    let hand = &mut floor.hands[usize::from(w)];
    let step = hand_over(hand, &floor.conf, &mut floor.slots, input)?;
    floor.pending = recounted(floor.pending, step.waited, step.waits)?;
    append(&mut floor.told, step.told)?;
    Ok(())
}

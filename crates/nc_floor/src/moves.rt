//! The moves on the floor.
ghost use Rattle.std.specs.Prelude.{◌≡◌, ◌≢◌, ◌<◌, ◌++◌, [], length, false, IfOk, OnOk};
ghost use Rattle.nc_rings.specs.Ring.{ring_of};
ghost use Rattle.nc_worker_state.specs.Incoming.{incoming_of};
ghost use Rattle.nc_worker_state.specs.Worker.{is_worn};
ghost use Rattle.nc_world.specs.World.{pending_in};
ghost use Rattle.nc_world.specs.Moves.{Handles, Carries, Takes, Counts, Rests, counted, rested};
ghost use Rattle.nc_world_laws.specs.Outside.{IsOutside};
ghost use Rattle.nc_floor.specs.Hand.{IsRight};
ghost use Rattle.nc_floor.specs.Floor.{setup_in, world_of, IsFloor, HasMoved, Tries};

use crate::act::act;
use crate::floor::Floor;
use crate::hand::Hand;
use nc_journal::Event;
use nc_settle::Turn;
use nc_slots::{PlainHold, PlainSlots, Slots};
use nc_types::NoMemory;
use nc_worker_state::Input;

/// Hands worker `w` something from outside.
pub fn handle<W: Hand>(floor: &mut Floor<W>, w: u8, input: Input<PlainHold>) -> Result<(), NoMemory>
    requires floor { IsFloor W.worker W.sound ⟦<PlainSlots as Slots>⟧.held floor.old }
    requires there { w < floor.old.conf.workers }
    requires outside { IsOutside (incoming_of input) }
    requires right { IsRight ⟦<PlainSlots as Slots>⟧.held floor.old.conf.workers w input }
    ensures floor { OnOk result (IsFloor W.worker W.sound ⟦<PlainSlots as Slots>⟧.held floor.new) }
    ensures moved { OnOk result (HasMoved W.worker (Handles w (incoming_of input)) floor.old floor.new) }
{
    act(floor, w, input)?;
    Ok(())
}

/// Carries the first packet of worker `w` to another into the ring between them, which has room.
pub(crate) fn carry_on<W: Hand>(floor: &mut Floor<W>, w: u8, to: u8) -> Result<(), NoMemory>
    requires floor { IsFloor W.worker W.sound ⟦<PlainSlots as Slots>⟧.held floor.old }
    requires there { w < floor.old.conf.workers }
    requires receiver { to < floor.old.conf.workers }
    requires waits { ((world_of W.worker floor.old).workers w).outbox to ≢ [] }
    requires room { length (ring_of floor.old.rings w to) < 256 }
    ensures floor { OnOk result (IsFloor W.worker W.sound ⟦<PlainSlots as Slots>⟧.held floor.new) }
    ensures moved { OnOk result (HasMoved W.worker (Carries w to) floor.old floor.new) }
{
    let hand = &mut floor.hands[usize::from(w)];
    let Some(packet) = hand.next_packet(to) else {
        unreachable!()
    };
    floor.rings.push(w, to, packet)?;
    Ok(())
}

/// Worker `w` takes the first packet of the ring from another, in which there is one, and handles it.
pub(crate) fn take_up<W: Hand>(floor: &mut Floor<W>, w: u8, from: u8) -> Result<(), NoMemory>
    requires floor { IsFloor W.worker W.sound ⟦<PlainSlots as Slots>⟧.held floor.old }
    requires there { w < floor.old.conf.workers }
    requires sender { from < floor.old.conf.workers }
    requires comes { ring_of floor.old.rings from w ≢ [] }
    ensures floor { OnOk result (IsFloor W.worker W.sound ⟦<PlainSlots as Slots>⟧.held floor.new) }
    ensures moved { OnOk result (HasMoved W.worker (Takes w from) floor.old floor.new) }
{
    let Some(packet) = floor.rings.take(from, w) else {
        unreachable!()
    };
    floor.pending -= 1;
    act(floor, w, Input::Packet(packet))?;
    Ok(())
}

/// Tells that no alert is pending, if none is.
pub fn rest<W: Hand>(floor: &mut Floor<W>) -> Result<(), NoMemory>
    requires { IsFloor W.worker W.sound ⟦<PlainSlots as Slots>⟧.held floor.old }
    ensures floor { OnOk result (IsFloor W.worker W.sound ⟦<PlainSlots as Slots>⟧.held floor.new) }
    ensures moved { OnOk result (HasMoved W.worker Rests floor.old floor.new) }
{
    if floor.pending == 0 {
        floor.told.push(Event::Quiet)?;
    }
    Ok(())
}

/// Tells how many alerts are pending, or that none is.
pub fn count<W: Hand>(floor: &mut Floor<W>) -> Result<(), NoMemory>
    requires { IsFloor W.worker W.sound ⟦<PlainSlots as Slots>⟧.held floor.old }
    ensures floor { OnOk result (IsFloor W.worker W.sound ⟦<PlainSlots as Slots>⟧.held floor.new) }
    ensures moved { OnOk result (HasMoved W.worker Counts floor.old floor.new) }
{
    let event = match floor.pending {
        0 => Event::Quiet,
        n => Event::Pending { n },
    };
    floor.told.push(event)?;
    Ok(())
}

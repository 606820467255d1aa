//! A new floor, and what is asked of one between lines.
ghost use Rattle.std.specs.Prelude.{◌≡◌, ◌==◌, [], IfOk};
ghost use Rattle.nc_worker_state.specs.Setup.{setup_of};
ghost use Rattle.nc_world.specs.World.{new_world, pending_in};
ghost use Rattle.nc_floor.specs.Floor.{setup_in, world_of, telling_of, IsFloor};

use crate::floor::{Floor, hire, sets_up};
use crate::hand::Hand;
use nc_journal::EventList;
use nc_rings::Rings;
use nc_slots::{PlainSlots, Slots};
use nc_types::{Config, List, NoMemory};
use std::alloc::Global;
use std::mem;

/// A floor of new workers by a configuration, whose numbers begin with `first`.
pub fn open<W: Hand>(alloc: Global, conf: Config, first: u64) -> Result<Floor<W>, NoMemory>
    ensures floor { IfOk result (IsFloor W.worker W.sound ⟦<PlainSlots as Slots>⟧.held) }
    ensures new { IfOk result (λ floor. telling_of W.worker floor
        ≡ record { setup = setup_of conf first; world = new_world (setup_of conf first); told = [] }) }
{
    sets_up(&conf);
    let hands = hire(alloc, &conf, first)?;
    let slots = PlainSlots::new(alloc, conf.workers, conf.slots)?;
    Ok(Floor {
        alloc,
        conf,
        first,
        hands,
        slots,
        rings: Rings::new(alloc),
        pending: 0,
        told: List::new(alloc),
    })
}

/// Whether no alert is pending.
pub fn is_quiet<W: Hand>(floor: &Floor<W>) -> bool
    requires { IsFloor W.worker W.sound ⟦<PlainSlots as Slots>⟧.held floor.now }
    ensures { result ≡ (pending_in (setup_in floor.now) (world_of W.worker floor.now) == 0) }
{
    floor.pending == 0
}

/// Gives the events of the line at hand, which ends.
pub fn finish<W: Hand>(floor: &mut Floor<W>) -> EventList
    requires { IsFloor W.worker W.sound ⟦<PlainSlots as Slots>⟧.held floor.old }
    ensures floor { IsFloor W.worker W.sound ⟦<PlainSlots as Slots>⟧.held floor.new }
    ensures events { result.events ≡ floor.old.told }
    ensures rest { telling_of W.worker floor.new ≡ record (telling_of W.worker floor.old) { told = [] } }
{
    EventList {
        events: mem::replace(&mut floor.told, List::new(floor.alloc)),
    }
}

//! What stands on the floor.
ghost use Rattle.std.specs.Prelude.{◌≡◌, ℕ, map, IfOk};
ghost use Rattle.std.specs.List.{AllByRecursion};
ghost use Rattle.nc_worker_state.specs.Setup.{setup_of};
ghost use Rattle.nc_worker_state.specs.Worker.{new_worker};
ghost use Rattle.nc_world.specs.Lines.{below};
ghost use Rattle.nc_world.specs.Reached.{IsSetup};

use crate::hand::Hand;
use nc_journal::Event;
use nc_rings::Rings;
use nc_slots::{PlainHold, PlainSlots};
use nc_types::{Config, List, NoMemory};
use std::alloc::Global;

/// All workers with their slots, the packets on their way, how many packets are pending, and the events of the line at hand.
/// After want of memory it is only to be dropped.
#[derive(Drop)]
pub struct Floor<W> {
    pub(crate) alloc: Global,
    pub(crate) conf: Config,
    pub(crate) first: u64,
    pub(crate) hands: Vec<W>,
    pub(crate) slots: PlainSlots,
    pub(crate) rings: Rings<PlainHold>,
    pub(crate) pending: u64,
    pub(crate) told: List<Event>,
}

/// The workers of a configuration, each of them new.
pub(crate) fn hire<W: Hand>(alloc: Global, conf: &Config, first: u64) -> Result<Vec<W>, NoMemory>
    ensures hired { IfOk result (λ hands. map W.worker hands.items ≡ map (new_worker (setup_of conf.now first)) (below conf.now.workers)) }
    ensures sound { IfOk result (λ hands. AllByRecursion W.sound hands.items) }
{
    let mut hands = Vec::new(alloc);
    let workers = conf.workers;
    for me in 0..workers {
        hands.push(W::new(alloc, me, conf, first)?)?;
    }
    Ok(hands)
}

/// A configuration sets up one to sixteen workers, and direct posts with a message's timeout.
pub fn sets_up(conf: &Config)
    ensures { (first : ℕ) → IsSetup (setup_of conf.now first) }
{
    let _workers = conf.workers;
    let base = &conf.base;
    let _timeout = base.timeout;
}

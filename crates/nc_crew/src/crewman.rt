//! A worker over the slots of one thread.
ghost use Rattle.nc_worker.specs.Parts.{worker_of};
ghost use Rattle.nc_crew.specs.Crewman.{IsReady};

use nc_alert::Packet;
use nc_floor::Hand;
use nc_journal::EventList;
use nc_slots::{PlainHold, PlainSlots, Slots};
use nc_types::{Config, NoMemory};
use nc_worker::Worker;
use nc_worker_state::Input;
use std::alloc::Global;

/// A worker over the slots of one thread. After want of memory it is only to be dropped.
#[derive(Drop)]
pub struct Crewman {
    worker: Worker<PlainSlots>,
}

impl Hand for Crewman {
    ghost worker = { λ c. worker_of c.worker.parts };

    ghost sound = { λ c. IsReady ⟦<PlainSlots as Slots>⟧.held c.worker.spent c.worker.parts };

    fn new(alloc: Global, me: u8, conf: &Config, first: u64) -> Result<Crewman, NoMemory> {
        Ok(Crewman {
            worker: Worker::new(alloc, me, conf, first),
        })
    }

    fn handle(
        &mut self,
        conf: &Config,
        slots: &mut PlainSlots,
        input: Input<PlainHold>,
    ) -> Result<EventList, NoMemory> {
        self.worker.handle_unchecked(slots, conf, input)
    }

    fn is_worn(&self, workers: u8) -> bool {
        self.worker.is_worn(workers)
    }

    fn waiting(&self, to: u8) -> usize {
        self.worker.waiting(to)
    }

    fn next_packet(&mut self, to: u8) -> Option<Packet<PlainHold>> {
        self.worker.next_packet(to)
    }
}

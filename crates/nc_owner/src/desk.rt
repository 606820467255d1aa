//! What an owner keeps beside its channels.
ghost use Rattle.std.specs.Prelude.{◌≡◌, OnOk};
ghost use Rattle.nc_journal.specs.Stamp.{greater_id};
ghost use Rattle.nc_owner.specs.Ascending.{with_number, without_number};

use crate::ascending::{with_slot, without_slot};
use crate::moment::Moment;
use nc_types::{List, MsgId, NoMemory};
use std::alloc::Global;
use std::mem;

/// An owner without its channels: its worker's number, the number of workers and of its slots, its clock and floor in seconds,
/// its spent id, the numbers that its next look and its next grant draw, how many of its slots are buffered,
/// and its retired slots in ascending order.
#[derive(Drop)]
pub struct Desk {
    pub me: u8,
    pub workers: u8,
    pub slots: u32,
    pub clock: Moment,
    pub floor: u64,
    pub spent: MsgId,
    pub looks: u64,
    pub grants: u64,
    pub buffered: u32,
    pub retired: List<u32>,
}

impl Desk {
    /// A slot is retired.
    pub(crate) fn retire(&mut self, alloc: Global, slot: u32) -> Result<(), NoMemory>
        ensures { OnOk result (self.new ≡ record self.old { retired = with_number self.old.retired slot }) }
    {
        let slots = mem::replace(&mut self.retired, List::new(alloc));
        self.retired = with_slot(slots, slot)?;
        Ok(())
    }

    /// A retired slot is unused.
    pub(crate) fn free(&mut self, alloc: Global, slot: u32)
        ensures { self.new ≡ record self.old { retired = without_number self.old.retired slot } }
    {
        let slots = mem::replace(&mut self.retired, List::new(alloc));
        self.retired = without_slot(slots, slot);
    }

    /// The spent id isn't before an id from then on.
    pub(crate) fn spend(&mut self, id: MsgId)
        ensures { self.new ≡ record self.old { spent = greater_id self.old.spent id } }
    {
        if id.past(&self.spent) {
            self.spent = id;
        }
    }
}

//! The handle of one worker.
ghost use Rattle.std.specs.Prelude.{◌≡◌, false, []};

use crate::hold::SharedHold;
use crate::naming::Naming;
use crate::row::SharedRow;
use nc_slots::{Polled, PutRefusal, Slots};
use nc_types::{Msg, NoMemory};
use std::alloc::Global;
use std::marker::Model;

/// One worker's handle of shared slots. It has the slots of its own worker, and none of any other.
///
/// The numbers of holds aren't told: other threads change them. A poll answers what the slot's word shows at that moment:
/// `Held` with the number of holds where there are some, which is at most what the slot can have.
#[derive(Drop)]
pub struct SharedSlots<J: Naming> {
    alloc: Global,
    owner: u8,
    row: SharedRow<J>,
}

impl<J: Naming> Model for SharedSlots<J> {
    ghost use Rattle.nc_shared_slots.specs.Shared.{SharedAt};

    ghost Value = { SharedAt };

    ghost view = { λ s. record { owner = s.owner; slots = s.row } };
}

impl<J: Naming> SharedSlots<J> {
    /// The handle of an owner over its slots.
    pub(crate) fn of(alloc: Global, owner: u8, row: SharedRow<J>) -> SharedSlots<J>
        ensures { result ≡ record { owner = owner; slots = row } }
    {
        SharedSlots { alloc, owner, row }
    }

    /// The worker that the handle is of.
    pub fn owner(&self) -> u8
        ensures { result ≡ self.now.owner }
    {
        self.owner
    }
}

impl<J: Naming> Slots for SharedSlots<J> {
    ghost use Rattle.nc_shared_slots.specs.Shared.{slots_of};

    type Hold = SharedHold<J>;

    ghost slots = { slots_of };

    ghost exact = { false };

    ghost holds = { λ s owner. [] };

    ghost held = { λ hold. hold };

    fn put(&mut self, owner: u8, msg: Msg) -> Result<u32, PutRefusal> {
        if owner != self.owner {
            return Err(PutRefusal::Full(msg));
        }
        self.row.put(self.alloc, msg)
    }

    fn grant(&mut self, owner: u8, slot: u32) -> Result<SharedHold<J>, NoMemory> {
        if owner != self.owner {
            return Err(NoMemory);
        }
        self.row.grant(owner, slot)
    }

    fn message<'h>(&self, hold: &'h SharedHold<J>) -> &'h Msg {
        &hold.message
    }

    fn release(&mut self, hold: SharedHold<J>) {
        self.row.release(hold);
    }

    fn retire(&mut self, owner: u8, slot: u32) {
        if owner == self.owner {
            self.row.retire(slot);
        }
    }

    fn poll(&mut self, owner: u8, slot: u32) -> Polled {
        if owner != self.owner {
            return Polled::Freed;
        }
        self.row.poll(slot)
    }
}

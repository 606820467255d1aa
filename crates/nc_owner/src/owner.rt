//! Owners.
ghost use Rattle.std.specs.Prelude.{◌≡◌, ◌<◌, ◌≤◌, IfOk};
ghost use Rattle.nc_owner.specs.State.{new_owner};
ghost use Rattle.nc_owner.specs.Moment.{IsClock};
ghost use Rattle.nc_owner.specs.OtherSteps.{with_clock, names_of};

use crate::channel::Channel;
use crate::desk::Desk;
use crate::moment::Moment;
use nc_types::{ChanName, List, MsgId, NoMemory};
use std::alloc::Global;
use std::collections::BTreeMap;
use std::marker::Model;

/// What a worker keeps as the owner of channels. After want of memory it is only to be dropped.
#[derive(Drop)]
pub struct Owner {
    pub(crate) alloc: Global,
    pub(crate) desk: Desk,
    pub(crate) channels: BTreeMap<ChanName, Channel>,
}

impl Model for Owner {
    ghost use Rattle.nc_owner.specs.State.{OwnerAt};

    ghost Value = { OwnerAt };

    ghost view = { λ o. record { desk = o.desk; channels = o.channels.entries } };
}

impl Owner {
    /// The owner of a worker, which has no channels yet. Its numbers of looks and of grants begin with `first`.
    pub fn new(alloc: Global, me: u8, workers: u8, slots: u32, first: u64) -> Owner
        requires me { me < workers }
        requires workers { workers ≤ 16 }
        requires slots { (0 < slots) × (slots ≤ 4096) }
        ensures { result ≡ new_owner me workers slots first }
    {
        Owner {
            alloc,
            desk: Desk {
                me,
                workers,
                slots,
                clock: Moment::of(0),
                floor: 0,
                spent: MsgId { time: 0, tag: -1 },
                looks: first,
                grants: first,
                buffered: 0,
                retired: List::new(alloc),
            },
            channels: BTreeMap::new(alloc),
        }
    }

    /// The clock moves, forward or backward.
    pub fn set_clock(&mut self, now: u64)
        requires { IsClock now }
        ensures { self.new ≡ with_clock now self.old }
    {
        self.desk.clock = Moment::of(now);
    }

    /// The number that its next look draws.
    pub fn looks(&self) -> u64
        ensures { result ≡ self.now.desk.looks }
    {
        self.desk.looks
    }

    /// The number that its next grant draws.
    pub fn grants(&self) -> u64
        ensures { result ≡ self.now.desk.grants }
    {
        self.desk.grants
    }

    /// The names of the existing channels, in ascending order.
    pub fn names(&self) -> Result<List<ChanName>, NoMemory>
        ensures { IfOk result (λ names. names ≡ names_of self.now) }
    {
        let mut names = List::new(self.alloc);
        for name in self.channels.keys() {
            names.push(name.copied()?)?;
        }
        Ok(names)
    }
}

//! New sets of shared slots.
ghost use Rattle.std.specs.Prelude.{◌≡◌, ◌≤◌, IfOk, OnOk, replicate};
ghost use Rattle.nc_slots.specs.declared.slot.Slot.TheVariants.{Unused};
ghost use Rattle.nc_shared_slots.specs.Opened.{new_handles, cut_once};

use crate::handle::SharedSlots;
use crate::naming::Naming;
use crate::row::SharedRow;
use nc_slot_rule::{Pass, Size, Words, steps};
use nc_slots::SlotRow;
use nc_types::{List, NoMemory};
use std::alloc::Global;
use std::marker::{Model, PhantomData};
use std::sync::Arc;

/// The slots of which no worker has its handle yet, whose words begin with the word `first`.
#[derive(Drop)]
struct Rest {
    alloc: Global,
    words: Arc<Words, Global>,
    first: usize,
    per: u32,
    pass: Pass,
}

impl Model for Rest {
    ghost use Rattle.std.specs.Prelude.{length};
    ghost use Rattle.std.specs.Arc.{arc_value};
    ghost use Rattle.nc_shared_slots.specs.Opened.{RestAt, IsRest};

    ghost Value = { RestAt };

    ghost view = { λ r. record { table = (arc_value r.words).shared.table_id; per = r.per; left = length r.pass.me.0.row } };

    ghost invariant = { λ r. IsRest (arc_value r.words).shared.table_id r.pass.table_id r.pass.me.0 r.first r.per };
}

impl Rest {
    /// The slots of the next worker.
    fn cut<J: Naming>(&mut self) -> Result<SharedRow<J>, NoMemory>
        requires set { self.old.table ≡ J.table }
        requires left { self.old.per ≤ self.old.left }
        ensures row { IfOk result (λ row. row ≡ replicate self.old.per Unused) }
        ensures rest { OnOk result (self.new ≡ cut_once self.old) }
    {
        let slots = SlotRow::new(self.alloc, self.per)?;
        let words = Arc::try_clone(&self.words)?;
        let first = self.first;
        let pass = steps::next_owner(&self.words, &mut self.pass);
        self.first = first + self.per as usize;
        Ok(SharedRow {
            words,
            first,
            slots,
            pass,
            of: PhantomData,
        })
    }
}

/// A new set of shared slots, all unused, of which no worker has its handle yet.
/// Contracts see the table of its words, by which it is named, and how many workers and slots of each there are.
#[derive(Drop)]
pub struct NewSlots {
    workers: u8,
    rest: Rest,
}

impl Model for NewSlots {
    ghost use Rattle.std.specs.Prelude.{◌≡◌, ◌*◌, ◌≤◌};
    ghost use Rattle.nc_shared_slots.specs.Opened.{NewAt};

    ghost Value = { NewAt };

    ghost view = { λ n. record { table = n.rest.table; workers = n.workers; slots = n.rest.per } };

    ghost invariant = { λ n. n.workers * n.rest.per ≤ n.rest.left };
}

/// The slots of so many workers, all unused.
pub fn shared(alloc: Global, workers: u8, slots: u32) -> Result<NewSlots, NoMemory>
    ensures { IfOk result (λ new. (new.workers ≡ workers) × (new.slots ≡ slots)) }
{
    let count = u64::from(workers) * u64::from(slots);
    let size = Size {
        per: u64::from(slots),
        words: count.max(1),
    };
    let (words, pass) = steps::unused(alloc, size)?;
    let words = Arc::new(alloc, words)?;
    let rest = Rest {
        alloc,
        words,
        first: 0,
        per: slots,
        pass,
    };
    Ok(NewSlots { workers, rest })
}

impl NewSlots {
    /// The handles of all workers, in their order. All slots are unused.
    pub fn handles<J: Naming>(self) -> Result<List<SharedSlots<J>>, NoMemory>
        requires { self.table ≡ J.table }
        ensures { IfOk result (λ handles. handles ≡ new_handles self.workers self.slots) }
    {
        let NewSlots { workers, mut rest } = self;
        let mut handles = List::new(rest.alloc);
        for owner in 0..workers {
            let row = rest.cut::<J>()?;
            handles.push(SharedSlots::of(rest.alloc, owner, row))?;
        }
        Ok(handles)
    }
}

//! All channels of an owner are swept.
ghost use Rattle.std.specs.Prelude.{◌≡◌, IfOk, OnOk, true, fold, List as Items};
ghost use Rattle.nc_owner.specs.declared.poll.PollAnswer.{PollAnswer};
ghost use Rattle.nc_owner.specs.Pool.{SameOthers};
ghost use Rattle.nc_owner.specs.Rules.{FreesOnlyRetired, FreesUnheld};
ghost use Rattle.nc_reaper.specs.Reap.{events_of, state, steps_of, swept, IsReaped};

use nc_owner::{Done, Owner};
use nc_slots::Slots;
use nc_types::{ChanName, List, NoMemory};
use std::alloc::Global;

/// Sweeps each of these channels, one after the other.
fn sweep_all<P: Slots>(
    owner: &mut Owner,
    pool: &mut P,
    names: &[ChanName],
    steps: &mut List<Done<P::Hold>>,
) -> Result<(), NoMemory>
    ensures me { OnOk result (owner.new.desk.me ≡ owner.old.desk.me) }
    ensures all { OnOk result (state owner.new (P.slots pool.new owner.old.desk.me) (steps_of steps.new)
        ≡ fold swept (state owner.old (P.slots pool.old owner.old.desk.me) (steps_of steps.old)) names.now) }
    ensures others { OnOk result (SameOthers owner.old.desk.me (P.slots pool.old) (P.slots pool.new)) }
    ensures holds { OnOk result (P.exact ≡ true → P.holds pool.new ≡ P.holds pool.old) }
{
    for name in names {
        let done = owner.sweep_one(pool, name)?;
        steps.push(done)?;
    }
    Ok(())
}

/// Sweeps each channel of an owner, in ascending order of name, and then polls all retired slots, in ascending order.
///
/// A channel that keeps no message and has no member goes, and each worker that waits there is told. There is a step for each channel,
/// with the alerts that stand behind its events, and a last one for the polls.
pub fn reap<P: Slots>(
    alloc: Global,
    owner: &mut Owner,
    pool: &mut P,
) -> Result<List<Done<P::Hold>>, NoMemory>
    ensures reaped { IfOk result (λ steps. (answers : Items PollAnswer)
        × IsReaped P.exact (P.holds pool.old owner.old.desk.me) answers (P.slots pool.old owner.old.desk.me) owner.old (steps_of steps)
        (P.slots pool.new owner.old.desk.me) owner.new) }
    ensures others { OnOk result (SameOthers owner.old.desk.me (P.slots pool.old) (P.slots pool.new)) }
    ensures holds { OnOk result (P.exact ≡ true → P.holds pool.new ≡ P.holds pool.old) }
    ensures retired { IfOk result (λ steps. FreesOnlyRetired owner.old.desk.retired (events_of (steps_of steps))) }
    ensures freed { IfOk result (λ steps. P.exact ≡ true → FreesUnheld (P.holds pool.old owner.old.desk.me) (events_of (steps_of steps))) }
{
    let names = owner.names()?;
    let mut steps = List::new(alloc);
    sweep_all(owner, pool, names.as_slice(), &mut steps)?;
    let events = owner.poll_retired(pool)?;
    let alerts = List::new(alloc);
    steps.push(Done { events, alerts })?;
    Ok(steps)
}

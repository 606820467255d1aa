//! The steps of an owner, each told with the alerts that it makes. After want of memory the slots, the owner and the scribe of a step
//! are only to be dropped.
ghost use Rattle.std.specs.Prelude.{◌≡◌, ◌≤◌, ℕ, OnOk};
ghost use Rattle.nc_types.specs.Message.{IsContentType};
ghost use Rattle.nc_journal.specs.declared.alert.AlertLine.TheVariants as lines;
ghost use Rattle.nc_history.specs.Packets.{packet};
ghost use Rattle.nc_owner_laws.specs.OwnerFits.{OwnerFits};
ghost use Rattle.nc_worker_state.specs.Incoming.{TakesPacket, Reaps};
ghost use Rattle.std.specs.List.{AllByRecursion};
ghost use Rattle.nc_owner.specs.declared.done.Done.{Done as DoneAt};
ghost use Rattle.nc_reaper.specs.Reap.{steps_of};
ghost use Rattle.nc_owner_laws.specs.Reaping.{steps_woven};
ghost use Rattle.nc_slots.specs.Slots.{HoldAt};
ghost use Rattle.nc_outbox.specs.Outboxes.{next_of};
ghost use Rattle.nc_scribe.specs.Kinds.{AreAside};
ghost use Rattle.nc_scribe.specs.Scribe.{TellsMore, KeepsOwn, AllGranted};
ghost use Rattle.nc_owned.specs.Owns.{Owns};

use nc_owner::{Done, Order, Owner};
use nc_reaper::reap;
use nc_scribe::Scribe;
use nc_slots::Slots;
use nc_types::{ChanName, List, MsgId, NoMemory};
use std::alloc::Global;

/// A message is published, as worker `from` orders it.
pub fn publish<P: Slots>(
    owner: &mut Owner,
    pool: &mut P,
    scribe: &mut Scribe<P::Hold>,
    from: u8,
    order: Order,
) -> Result<(), NoMemory>
    requires me { scribe.old.me ≡ owner.old.desk.me }
    requires fits { OwnerFits (P.slots pool.old owner.old.desk.me) owner.old }
    requires timeout { order.timeout ≤ 1000000000 }
    requires content_type { IsContentType order.content_type }
    ensures { OnOk result ((n : ℕ) → Owns P.held P.exact
        (TakesPacket from (packet n (lines.Publish order.r order.chan order.length order.timeout order.content_type order.body))) (P.slots pool.old)
        (P.slots pool.new) (P.holds pool.old) (P.holds pool.new) owner.old owner.new scribe.old scribe.new) }
{
    let done = owner.publish(pool, from, order)?;
    scribe.weave(done)?;
    Ok(())
}

/// A look of worker `from`, behind a fence.
pub fn look<P: Slots>(
    owner: &mut Owner,
    pool: &mut P,
    scribe: &mut Scribe<P::Hold>,
    from: u8,
    no: u64,
    c: ChanName,
    after: MsgId,
    fence: u64,
) -> Result<(), NoMemory>
    requires me { scribe.old.me ≡ owner.old.desk.me }
    requires fits { OwnerFits (P.slots pool.old owner.old.desk.me) owner.old }
    ensures { OnOk result ((n : ℕ) → Owns P.held P.exact (TakesPacket from (packet n (lines.Look no c after fence))) (P.slots pool.old)
        (P.slots pool.new) (P.holds pool.old) (P.holds pool.new) owner.old owner.new scribe.old scribe.new) }
{
    let done = owner.look(pool, from, no, c, after, fence)?;
    scribe.weave(done)?;
    Ok(())
}

/// How far a channel has come, behind a fence, as worker `from` asks for its subscriber `k`.
pub fn edge<P: Slots>(
    owner: &mut Owner,
    pool: &mut P,
    scribe: &mut Scribe<P::Hold>,
    from: u8,
    no: u64,
    k: u64,
    c: ChanName,
    fence: u64,
) -> Result<(), NoMemory>
    requires me { scribe.old.me ≡ owner.old.desk.me }
    requires fits { OwnerFits (P.slots pool.old owner.old.desk.me) owner.old }
    ensures { OnOk result ((n : ℕ) → Owns P.held P.exact (TakesPacket from (packet n (lines.Edge no k c fence))) (P.slots pool.old) (P.slots pool.new)
        (P.holds pool.old) (P.holds pool.new) owner.old owner.new scribe.old scribe.new) }
{
    let done = owner.edge(pool, from, no, k, c, fence)?;
    scribe.weave(done)?;
    Ok(())
}

/// A subscriber of worker `from` becomes a member of a channel.
pub fn join<P: Slots>(
    owner: &mut Owner,
    pool: &mut P,
    scribe: &mut Scribe<P::Hold>,
    from: u8,
    c: ChanName,
    k: u64,
) -> Result<(), NoMemory>
    requires me { scribe.old.me ≡ owner.old.desk.me }
    requires fits { OwnerFits (P.slots pool.old owner.old.desk.me) owner.old }
    ensures { OnOk result ((n : ℕ) → Owns P.held P.exact (TakesPacket from (packet n (lines.Join c k))) (P.slots pool.old) (P.slots pool.new)
        (P.holds pool.old) (P.holds pool.new) owner.old owner.new scribe.old scribe.new) }
{
    let done = owner.join(pool, from, c, k)?;
    scribe.weave(done)?;
    Ok(())
}

/// A subscriber of worker `from` is a member of a channel no longer.
pub fn part<P: Slots>(
    owner: &mut Owner,
    pool: &mut P,
    scribe: &mut Scribe<P::Hold>,
    from: u8,
    c: ChanName,
    k: u64,
) -> Result<(), NoMemory>
    requires me { scribe.old.me ≡ owner.old.desk.me }
    requires fits { OwnerFits (P.slots pool.old owner.old.desk.me) owner.old }
    ensures { OnOk result ((n : ℕ) → Owns P.held P.exact (TakesPacket from (packet n (lines.Part c k))) (P.slots pool.old) (P.slots pool.new)
        (P.holds pool.old) (P.holds pool.new) owner.old owner.new scribe.old scribe.new) }
{
    let done = owner.part(pool, from, c, k)?;
    scribe.weave(done)?;
    Ok(())
}

/// A channel is deleted, as request `r` of worker `from` asks.
pub fn delete<P: Slots>(
    owner: &mut Owner,
    pool: &mut P,
    scribe: &mut Scribe<P::Hold>,
    from: u8,
    r: u64,
    c: ChanName,
) -> Result<(), NoMemory>
    requires me { scribe.old.me ≡ owner.old.desk.me }
    requires fits { OwnerFits (P.slots pool.old owner.old.desk.me) owner.old }
    ensures { OnOk result ((n : ℕ) → Owns P.held P.exact (TakesPacket from (packet n (lines.Delete r c))) (P.slots pool.old) (P.slots pool.new)
        (P.holds pool.old) (P.holds pool.new) owner.old owner.new scribe.old scribe.new) }
{
    let done = owner.delete(pool, from, r, c)?;
    scribe.weave(done)?;
    Ok(())
}

/// Worker `from` asks what a channel has, for its request `r`.
pub fn inform<P: Slots>(
    owner: &mut Owner,
    pool: &mut P,
    scribe: &mut Scribe<P::Hold>,
    from: u8,
    r: u64,
    c: ChanName,
) -> Result<(), NoMemory>
    requires me { scribe.old.me ≡ owner.old.desk.me }
    requires fits { OwnerFits (P.slots pool.old owner.old.desk.me) owner.old }
    ensures { OnOk result ((n : ℕ) → Owns P.held P.exact (TakesPacket from (packet n (lines.Info r c))) (P.slots pool.old) (P.slots pool.new)
        (P.holds pool.old) (P.holds pool.new) owner.old owner.new scribe.old scribe.new) }
{
    let done = owner.info(pool, from, r, c)?;
    scribe.weave(done)?;
    Ok(())
}

/// Tells what an owner did in some steps, one behind the other, each with the alerts that it made.
fn weave_all<H: Drop>(scribe: &mut Scribe<H>, steps: List<Done<H>>) -> Result<(), NoMemory>
    requires aside { AllByRecursion (λ (done : DoneAt H). AreAside done.events.events) steps }
    ensures tells { OnOk result (TellsMore scribe.old scribe.new (steps_woven scribe.old.me (next_of scribe.old.outboxes) (steps_of steps))) }
    ensures own { OnOk result ((held : H → HoldAt)
        → AllByRecursion (λ (done : DoneAt H). AllGranted held scribe.old.me done.alerts) steps → KeepsOwn held scribe.old scribe.new) }
{
    for done in steps.into_vec() {
        scribe.weave(done)?;
    }
    Ok(())
}

/// What has expired leaves all channels, a channel that keeps nothing and nobody goes, and slots that nobody holds are used again.
pub fn sweep<P: Slots>(
    alloc: Global,
    owner: &mut Owner,
    pool: &mut P,
    scribe: &mut Scribe<P::Hold>,
) -> Result<(), NoMemory>
    requires me { scribe.old.me ≡ owner.old.desk.me }
    requires fits { OwnerFits (P.slots pool.old owner.old.desk.me) owner.old }
    ensures { OnOk result (Owns P.held P.exact Reaps (P.slots pool.old) (P.slots pool.new) (P.holds pool.old)
        (P.holds pool.new) owner.old owner.new scribe.old scribe.new) }
{
    let steps = reap(alloc, owner, pool)?;
    weave_all(scribe, steps)?;
    Ok(())
}

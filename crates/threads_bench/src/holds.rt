//! Holds that one thread grants and another releases.
ghost use Rattle.std.specs.Prelude.{◌≡◌};

use nc_shared_slots::{Naming, NewSlots, SharedHold, SharedSlots, shared};
use nc_slots::Slots;
use nc_types::{List, Msg, MsgId, NoMemory};
use std::alloc::Global;
use std::marker::Brand;
use std::sync::Wait;
use std::thread;
use std::thread::Threads;

/// So many holds are granted in one round.
const ROUND: u64 = 65_536;

/// A message without a body.
fn message(alloc: Global) -> Msg {
    Msg {
        id: MsgId { time: 1, tag: 0 },
        body: List::new(alloc),
        content_type: None,
        expires: 0,
    }
}

/// Grants so many holds of the message in slot 0.
fn grant<J: Naming>(
    alloc: Global,
    pool: &mut SharedSlots<J>,
    count: u64,
) -> Result<Vec<SharedHold<J>>, NoMemory> {
    let mut holds = Vec::new(alloc);
    for _ in 0..count {
        holds.push(pool.grant(0, 0)?)?;
    }
    Ok(holds)
}

/// Reads the message of each hold and releases it.
fn release<J: Naming>(
    mut pool: SharedSlots<J>,
    holds: Vec<SharedHold<J>>,
) -> (SharedSlots<J>, u64) {
    let mut released = 0u64;
    for hold in holds {
        released = released.saturating_add(pool.message(&hold).id.time);
        pool.release(hold);
    }
    (pool, released)
}

/// The rounds over a set of slots of two workers.
fn rounds<J: Naming + Send + Sync, R: Threads + Wait + Sync>(
    rt: &R,
    alloc: Global,
    set: NewSlots,
    count: u64,
) -> Result<u64, NoMemory>
    requires { set.table ≡ J.table }
{
    let mut handles = set.handles::<J>()?.into_vec();
    let (Some(mut reader), Some(mut owner)) = (handles.pop(), handles.pop()) else {
        return Err(NoMemory);
    };
    if owner.put(0, message(alloc)).is_err() {
        return Err(NoMemory);
    }
    let mut released = 0u64;
    for round in 0..count.div_ceil(ROUND) {
        let holds = grant(
            alloc,
            &mut owner,
            ROUND.min(count.saturating_sub(round.saturating_mul(ROUND))),
        )?;
        let ((back, some), ()) = thread::join(rt, move || release(reader, holds), || ());
        reader = back;
        released = released.saturating_add(some);
    }
    Ok(released)
}

/// Grants so many holds, which another thread releases, and counts these.
pub fn release_all<R: Threads + Wait + Sync>(
    rt: &R,
    alloc: Global,
    count: u64,
) -> Result<u64, NoMemory> {
    let set = shared(alloc, 2, 1)?;
    rounds::<Brand, R>(rt, alloc, set, count)
}

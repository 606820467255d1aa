//! A hold that one thread grants and another releases.
ghost use Rattle.std.specs.Prelude.{◌≡◌};

use crate::slot_calls::{poll, put_message};
use crate::words::{put, put_count};
use nc_shared_slots::{Naming, NewSlots, SharedHold, SharedSlots, shared};
use nc_slots::Slots;
use nc_types::NoMemory;
use std::alloc::Global;
use std::marker::Brand;
use std::thread;
use std::thread::Threads;

/// Gives a hold back, and says which worker's handle did.
fn release<J: Naming>(mut pool: SharedSlots<J>, hold: SharedHold<J>) -> u8 {
    pool.release(hold);
    pool.owner()
}

/// The calls of the first worker, and between them those of the second one in a thread of its own.
fn give_by_two<J: Naming + Send + Sync, R: Threads + Sync>(
    rt: &R,
    alloc: Global,
    set: NewSlots,
    out: &mut Vec<u8>,
) -> Result<(), NoMemory>
    requires { set.table ≡ J.table }
{
    let mut handles = set.handles::<J>()?.into_vec();
    let (Some(second), Some(mut first)) = (handles.pop(), handles.pop()) else {
        return Ok(());
    };
    put_message(alloc, &mut first, out)?;
    let hold = first.grant(0, 0)?;
    first.retire(0, 0);
    put(out, b" ")?;
    poll(&mut first, out)?;
    let (by, ()) = thread::join(rt, move || release(second, hold), || ());
    put_count(out, b" released by=", u64::from(by))?;
    put(out, b" ")?;
    poll(&mut first, out)
}

/// `give`
pub fn give<R: Threads + Sync>(rt: &R, alloc: Global, out: &mut Vec<u8>) -> Result<(), NoMemory> {
    let set = shared(alloc, 2, 1)?;
    give_by_two::<Brand, R>(rt, alloc, set, out)
}

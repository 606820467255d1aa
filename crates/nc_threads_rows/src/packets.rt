//! Packets through rings.
ghost use Rattle.std.specs.Prelude.{◌≡◌, ◌<◌};
ghost use Rattle.nc_ring.specs.Packets.{Goes, IsAfter};
ghost use Rattle.nc_threads_rows.specs.Packets.{plain_packet};

use crate::words::{put, put_count};
use nc_alert::{Alert, Packet};
use nc_ring::{RingRx, RingTx, Route, pair};
use nc_types::{MsgId, NoMemory};
use std::alloc::Global;
use std::sync::Wait;
use std::thread;
use std::thread::Threads;

const ROUTE: Route = Route {
    workers: 2,
    from: 0,
    to: 1,
};

/// A packet of a number that carries no hold.
fn plain(route: Route, number: u64) -> Packet<u64>
    ensures { result ≡ plain_packet route number }
{
    Packet {
        from: route.from,
        to: route.to,
        number,
        alert: Alert::EdgeAnswer {
            no: 0,
            q: 0,
            floor: 0,
            last: MsgId { time: 0, tag: -1 },
        },
    }
}

/// Pushes a packet of a number, where the ring isn't full.
#[tactic(auto, using(crate::proofs::Carried::plain_goes, crate::proofs::Carried::plain_rises))]
fn push_one<R: Wait>(rt: &R, tx: &mut RingTx<u64>, number: u64) -> bool {
    let route = tx.route();
    if route.from >= route.workers {
        return false;
    }
    tx.push(rt, plain(route, number)).is_ok()
}

/// `take`: how often a take of a new ring found nothing, and which way the ring leads.
pub fn take_one<R: Wait>(rt: &R, alloc: Global, out: &mut Vec<u8>) -> Result<(), NoMemory> {
    let (_, mut rx) = pair::<u64>(alloc, ROUTE)?;
    rx.take(rt);
    let route = rx.route();
    put_count(out, b"nones=", rx.nones())?;
    put_count(out, b" from=", u64::from(route.from))?;
    put_count(out, b" to=", u64::from(route.to))
}

/// `push N`: how many pushes found room, and how many didn't.
pub fn push_some<R: Wait>(
    rt: &R,
    alloc: Global,
    count: u64,
    out: &mut Vec<u8>,
) -> Result<(), NoMemory> {
    let (mut tx, _) = pair::<u64>(alloc, ROUTE)?;
    let mut pushed = 0u64;
    for number in 0..count {
        if push_one(rt, &mut tx, number) {
            pushed = pushed.saturating_add(1);
        }
    }
    put_count(out, b"pushed=", pushed)?;
    put_count(out, b" full=", tx.full())
}

/// Pushes so many packets, each once there is room.
fn push_all<R: Wait>(rt: &R, mut tx: RingTx<u64>, count: u64) {
    for number in 0..count {
        for _ in rt.forever() {
            if push_one(rt, &mut tx, number) {
                break;
            }
            thread::yield_now();
        }
    }
}

/// The next packet's number, once there is one.
fn next_number<R: Wait>(rt: &R, rx: &mut RingRx<u64>) -> u64 {
    for _ in rt.forever() {
        if let Some(packet) = rx.take(rt) {
            return packet.number;
        }
        thread::yield_now();
    }
    unreachable!()
}

/// Takes so many packets, and counts those that came in their place.
fn take_all<R: Wait>(rt: &R, mut rx: RingRx<u64>, count: u64) -> (RingRx<u64>, u64) {
    let mut in_place = 0u64;
    for number in 0..count {
        if next_number(rt, &mut rx) == number {
            in_place = in_place.saturating_add(1);
        }
    }
    (rx, in_place)
}

/// `carry N`: how many packets came in their place, and how many are left.
pub fn carry<R: Threads + Wait + Sync>(
    rt: &R,
    alloc: Global,
    count: u64,
    out: &mut Vec<u8>,
) -> Result<(), NoMemory> {
    let (tx, rx) = pair::<u64>(alloc, ROUTE)?;
    let ((), (mut rx, in_place)) = thread::join(
        rt,
        move || push_all(rt, tx, count),
        move || take_all(rt, rx, count),
    );
    put_count(out, b"in place=", in_place)?;
    put(
        out,
        if rx.take(rt).is_none() {
            b" left=0"
        } else {
            b" left=1"
        },
    )
}

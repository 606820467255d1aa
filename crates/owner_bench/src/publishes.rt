//! Publishes over some channels, and how many of them were stored.
ghost use Rattle.std.specs.Prelude.{◌≡◌, ◌<◌, ◌≤◌, IfOk};
ghost use Rattle.std.specs.List.{list_any};
ghost use Rattle.owner_bench.specs.Publishes.{order_of, is_stored};

use nc_alert::{Alert, Outgoing};
use nc_owner::{Done, Order, Owner};
use nc_slots::{PlainHold, PlainSlots};
use nc_types::text::decimal;
use nc_types::{ChanName, List, NoMemory};
use std::alloc::Global;

const SLOTS: u32 = 4_096;

/// So many slots are filled before the publishes.
const FILLED: u64 = 4_000;

/// A message of one byte that never expires, on the channel of a number.
fn order(alloc: Global, r: u64, channel: u64, length: u32) -> Result<Order, NoMemory>
    ensures { IfOk result (λ order. order ≡ order_of r channel length) }
{
    Ok(Order {
        r,
        chan: ChanName {
            bytes: decimal(alloc, channel)?,
        },
        length,
        timeout: 0,
        content_type: None,
        body: List::of(Vec::from_slice(alloc, b"x")?),
    })
}

/// Whether an alert answers that a message was stored.
fn is_stored(out: &Outgoing<PlainHold>) -> bool
    ensures { result ≡ is_stored out.now }
{
    match &out.alert {
        Alert::PubAnswer { status, .. } => *status < 300,
        _ => false,
    }
}

/// Whether one of the alerts of a publish answers that the message was stored.
fn has_stored(done: &Done<PlainHold>) -> bool
    ensures { result ≡ list_any is_stored done.now.alerts }
{
    done.alerts.as_slice().iter().any(|out| is_stored(out))
}

/// Publishes so many messages on the channels from `first` on in turn, and counts those that were stored.
fn publish_some(
    alloc: Global,
    owner: &mut Owner,
    pool: &mut PlainSlots,
    first: u64,
    channels: u64,
    length: u32,
    publishes: u64,
) -> Result<u64, NoMemory>
    requires { (0 < channels) × (first ≤ 1) }
    ensures { IfOk result (λ stored. stored ≤ publishes) }
{
    let mut stored = 0;
    for r in 0..publishes {
        let order = order(alloc, r, first + r % channels, length)?;
        let done = owner.publish(pool, 0, order)?;
        if has_stored(&done) {
            stored += 1;
        }
    }
    Ok(stored)
}

/// Fills most of an owner's slots with the messages of a channel, publishes so many messages of length 0 on other channels,
/// and tells how many of these were stored.
pub fn publish_over(alloc: Global, channels: u64, publishes: u64) -> Result<u64, NoMemory>
    requires { 0 < channels }
    ensures { IfOk result (λ stored. stored ≤ publishes) }
{
    let mut owner = Owner::new(alloc, 0, 1, SLOTS, 0);
    let mut pool = PlainSlots::new(alloc, 1, SLOTS)?;
    publish_some(alloc, &mut owner, &mut pool, 0, 1, SLOTS, FILLED)?;
    publish_some(alloc, &mut owner, &mut pool, 1, channels, 0, publishes)
}

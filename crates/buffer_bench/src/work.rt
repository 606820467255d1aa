//! The works, and how many of their calls answered as they should.
use crate::fill::{Expiry, MOST_ENTRIES, filled, strewn};
use nc_buffer::Buffer;
use nc_types::{MsgId, NoMemory};
use std::alloc::Global;

/// What is done with a buffer once it is filled.
#[derive(Clone, Copy)]
pub(crate) enum Work {
    Store,
    Look,
    Follow,
    Expire,
    Age,
    Drop,
}

impl Work {
    /// Its name on the command line.
    pub(crate) fn word(self) -> &'static str {
        match self {
            Work::Store => "store",
            Work::Look => "look",
            Work::Follow => "follow",
            Work::Expire => "expire",
            Work::Age => "age",
            Work::Drop => "drop",
        }
    }

    /// When the entries that it works on expire.
    fn expiry(self) -> Expiry {
        match self {
            Work::Expire => Expiry::Strewn,
            Work::Age => Expiry::InOrder,
            Work::Store | Work::Look | Work::Follow | Work::Drop => Expiry::Never,
        }
    }
}

/// Looks twice as often as there are entries, past ids in another order. The oldest entry past the id t:0 stands at the place t.
fn right_looks(buffer: &Buffer, size: u64) -> u64 {
    let mut right = 0u64;
    for number in 0..size.saturating_mul(2) {
        let time = strewn(number, size).min(MOST_ENTRIES);
        if buffer.look(&MsgId { time, tag: 0 }) == Some(time as usize) {
            right = right.saturating_add(1);
        }
    }
    right
}

/// Looks twice as often as there are entries, as a subscriber who follows does: each time past the id that the look before found,
/// and from the oldest on again behind the last.
fn right_follows(buffer: &Buffer, size: u64) -> u64 {
    let mut right = 0u64;
    let mut time = 0u64;
    for _ in 0..size.saturating_mul(2) {
        let after = MsgId {
            time: time.min(MOST_ENTRIES),
            tag: 0,
        };
        let Some(place) = buffer.look(&after) else {
            return right;
        };
        if place as u64 == time {
            right = right.saturating_add(1);
        }
        let found = (place as u64).saturating_add(1);
        time = if found < size { found } else { 0 };
    }
    right
}

/// Takes out each entry at its second.
fn right_expired(buffer: &mut Buffer, size: u64) -> u64 {
    let mut right = 0u64;
    for before in 0..size {
        let now = before.saturating_add(1);
        if buffer
            .expire_one(now)
            .is_some_and(|entry| entry.expires == now)
        {
            right = right.saturating_add(1);
        }
    }
    right
}

/// Takes out the oldest until none is left.
fn right_dropped(buffer: &mut Buffer, size: u64) -> u64 {
    let mut right = 0u64;
    for before in 0..size {
        if buffer
            .drop_oldest()
            .is_some_and(|entry| entry.id.time == before.saturating_add(1))
        {
            right = right.saturating_add(1);
        }
    }
    right
}

/// Fills a buffer and works on it.
pub(crate) fn right_calls(alloc: Global, work: Work, size: u64) -> Result<u64, NoMemory> {
    let mut buffer = filled(alloc, size, work.expiry())?;
    match work {
        Work::Store => Ok(buffer.len() as u64),
        Work::Look => Ok(right_looks(&buffer, size)),
        Work::Follow => Ok(right_follows(&buffer, size)),
        Work::Expire | Work::Age => Ok(right_expired(&mut buffer, size)),
        Work::Drop => Ok(right_dropped(&mut buffer, size)),
    }
}

//! Buffers of so many entries.
use nc_buffer::{Buffer, Entry};
use nc_types::{MsgId, NoMemory};
use std::alloc::Global;

/// How many entries a buffer gets at most.
pub(crate) const MOST_ENTRIES: u64 = 1_000_000;

/// How far apart in their order entries stand that expire one second after the other.
const STRIDE: u64 = 7919;

/// A number of another order: each below `size` is that of one number below it, where `size` has no divisor of the stride.
pub(crate) fn strewn(number: u64, size: u64) -> u64 {
    number.wrapping_mul(STRIDE).checked_rem(size).unwrap_or(0)
}

/// When the entries of a buffer expire, each at a second of its own.
#[derive(Clone, Copy)]
pub(crate) enum Expiry {
    /// Never.
    Never,
    /// In the order in which they were stored.
    InOrder,
    /// In another order.
    Strewn,
}

/// The second at which an entry expires behind so many others, where 0 is never.
fn second_of(expiry: Expiry, before: u64, size: u64) -> u64 {
    match expiry {
        Expiry::Never => 0,
        Expiry::InOrder => before.saturating_add(1),
        Expiry::Strewn => strewn(before, size).saturating_add(1),
    }
}

/// A buffer of so many entries, of [`MOST_ENTRIES`] at most: their ids are 1:0, 2:0 and so on.
pub(crate) fn filled(alloc: Global, size: u64, expiry: Expiry) -> Result<Buffer, NoMemory> {
    let mut buffer = Buffer::new(alloc);
    for before in 0..size.min(MOST_ENTRIES) {
        let entry = Entry {
            id: MsgId {
                time: before + 1,
                tag: 0,
            },
            slot: 0,
            expires: second_of(expiry, before, size),
            grants: 0,
        };
        buffer.store(entry)?;
    }
    Ok(buffer)
}

//! The bytes that were fed and not yet taken off.
ghost use Rattle.std.specs.Prelude.{◌≡◌, ◌≤◌, ◌++◌, [], length, drop, OnOk, OnErr};

use nc_types::{Bytes, List, NoMemory};
use std::alloc::Global;
use std::marker::Model;
use std::mem;

/// More room than this isn't kept beside the bytes.
const ROOM: usize = 1_024;

/// The room that is taken for the first bytes, so that a short request in small pieces takes memory once.
const FIRST: usize = 256;

/// Takes the first `count` bytes away, and moves the others to the front.
fn remove_front(bytes: &mut Vec<u8>, count: usize)
    requires { count ≤ length bytes.old.items }
    ensures { bytes.new.items ≡ drop count bytes.old.items }
{
    let len = bytes.len() - count;
    bytes.copy_within(count.., 0);
    bytes.truncate(len);
}

/// Bytes of which the first `from` were taken off.
#[derive(Drop)]
pub struct Pending {
    bytes: Vec<u8>,
    from: usize,
}

impl Model for Pending {
    ghost use Rattle.std.specs.Prelude.{◌≤◌, ℕ, List, length, drop};

    ghost Value = { List ℕ };

    ghost view = { λ p. drop p.from p.bytes.items };

    ghost invariant = { λ p. p.from ≤ length p.bytes.items };
}

impl Pending {
    /// No bytes.
    pub fn new(alloc: Global) -> Pending
        ensures { result ≡ [] }
    {
        Pending {
            bytes: Vec::new(alloc),
            from: 0,
        }
    }

    /// Where the bytes take their memory from.
    pub fn allocator(&self) -> Global {
        *self.bytes.allocator()
    }

    /// The bytes.
    pub fn as_slice(&self) -> &[u8]
        ensures { result.now ≡ self.now }
    {
        &self.bytes[self.from..]
    }

    /// Where bytes were taken off, moves the others to the front, and gives back the room that they don't need.
    pub fn settle(&mut self)
        ensures { self.new ≡ self.old }
    {
        if self.from > 0 {
            remove_front(&mut self.bytes, self.from);
            self.from = 0;
            if self.bytes.capacity() / 2 > self.bytes.len().saturating_add(ROOM) {
                self.bytes.shrink_to_fit();
            }
        }
    }

    /// Puts a piece behind the bytes. Without memory they stay as they were.
    ///
    /// They are moved to the front where at least as many were taken off as are left, so each is moved once at most for
    /// each byte that is taken off.
    pub fn put(&mut self, piece: &[u8]) -> Result<(), NoMemory>
        ensures ok { OnOk result (self.new ≡ self.old ++ piece.now) }
        ensures err { OnErr result (self.new ≡ self.old) }
    {
        if self.bytes.len() - self.from <= self.from {
            self.settle();
        }
        if self.bytes.capacity() == 0 {
            self.bytes.reserve(piece.len().max(FIRST))?;
        }
        match piece {
            [byte] => self.bytes.push(*byte)?,
            _ => self.bytes.extend_from_slice(piece)?,
        }
        Ok(())
    }

    /// Takes so many bytes off. Where none is left, no memory is kept.
    pub fn take_off(&mut self, count: usize)
        requires { count ≤ length self.old }
        ensures { self.new ≡ drop count self.old }
    {
        self.from += count;
        if self.from == self.bytes.len() {
            self.bytes.clear();
            self.bytes.shrink_to_fit();
            self.from = 0;
        }
    }

    /// Drops all bytes, and keeps no memory.
    pub fn clear(&mut self)
        ensures { self.new ≡ [] }
    {
        let count = self.bytes.len() - self.from;
        self.take_off(count);
    }

    /// Hands out all bytes, which takes no memory.
    pub fn take(&mut self) -> Bytes
        ensures bytes { result ≡ self.old }
        ensures after { self.new ≡ [] }
    {
        let empty = Vec::new(self.allocator());
        let from = mem::replace(&mut self.from, 0);
        let mut bytes = mem::replace(&mut self.bytes, empty);
        remove_front(&mut bytes, from);
        List::of(bytes)
    }
}

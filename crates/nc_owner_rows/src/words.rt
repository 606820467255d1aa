//! The words of a step.
ghost use Rattle.std.specs.Prelude.{◌<◌, ◌≤◌};

use nc_types::text::read_decimal;
use nc_types::{Bytes, ChanName, List, MsgId, NoMemory};
use std::alloc::Global;

/// The words of a step that weren't read yet.
#[derive(Clone, Copy)]
pub struct Words<'t> {
    pub rest: &'t str,
}

impl<'t> Words<'t> {
    /// The next word, which is empty where there is none.
    pub fn next(&mut self) -> &'t str {
        match self.rest.split_once(' ') {
            Some((word, rest)) => {
                self.rest = rest;
                word
            }
            None => {
                let word = self.rest;
                self.rest = "";
                word
            }
        }
    }

    /// The next word, a number at most `limit`, which any other word stands for.
    pub fn number(&mut self, limit: u64) -> u64
        ensures { result ≤ limit }
    {
        number_of(self.next(), limit)
    }

    /// The next word, a number of 8 bits.
    pub fn byte(&mut self) -> u8 {
        self.number(255) as u8
    }

    /// The next word, a number of 32 bits.
    pub fn slot(&mut self) -> u32 {
        self.number(4_294_967_295) as u32
    }

    /// The next word, a number of 64 bits.
    pub fn long(&mut self) -> u64 {
        self.number(u64::MAX)
    }

    /// The next word, a number of the two workers.
    pub fn worker(&mut self) -> u8
        ensures { result < 2 }
    {
        self.number(1) as u8
    }

    /// The next word, an id `TIME:TAG`, where the tag `-` is -1.
    pub fn id(&mut self) -> MsgId {
        let (time, tag) = self.next().split_once(':').unwrap_or(("", ""));
        let time = number_of(time, 253_402_300_799);
        if tag == "-" {
            return MsgId { time, tag: -1 };
        }
        let tag = number_of(tag, 65_535) as i32;
        MsgId { time, tag }
    }

    /// The next word, a fence in seconds, which is 0 where there is none.
    pub fn fence(&mut self) -> u64 {
        if self.rest.is_empty() {
            return 0;
        }
        self.long()
    }

    /// The next word, a channel's name.
    pub fn name(&mut self, alloc: Global) -> Result<ChanName, NoMemory> {
        Ok(ChanName {
            bytes: bytes(alloc, self.next())?,
        })
    }
}

/// The number that a text stands for, at most `limit`, which any other text stands for.
fn number_of(text: &str, limit: u64) -> u64
    ensures { result ≤ limit }
{
    match read_decimal(text.as_bytes(), limit) {
        Some(number) => number,
        None => limit,
    }
}

/// The bytes of a text.
pub fn bytes(alloc: Global, text: &str) -> Result<Bytes, NoMemory> {
    Ok(List::of(Vec::from_slice(alloc, text.as_bytes())?))
}

/// The bytes of the numbers in a text, with commas between them.
pub fn numbered_bytes(alloc: Global, text: &str) -> Result<Bytes, NoMemory> {
    let mut bytes = List::new(alloc);
    for number in text.split(',') {
        bytes.push(number.parse::<u8>().unwrap_or(0))?;
    }
    Ok(bytes)
}

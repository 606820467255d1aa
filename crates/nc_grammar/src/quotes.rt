//! Reads bytes between quotation marks, as `nc_types::text::quote` writes them.
//!
//! `reader` stands below. Each byte has one way in which it is written, and no other is read.
ghost use Rattle.std.specs.Prelude.{◌≡◌, ℕ, ◌<◌, ◌≤◌, List, [], ◌∷◌, ◌++◌, length, false, IfOk, IfSome, IfNone};
ghost use Rattle.nc_grammar.specs.Gives.{Gives, GivesBy, GivesByte};
ghost use Rattle.nc_grammar.specs.Reading.{first_passes};
ghost use Rattle.nc_grammar.specs.Quoted.{hex_value, is_plain, plain_run, is_coded, escape_of, quote_at, Plain, Slash, Hex, quoted_at};

use crate::fault::Fault;
use crate::reader::Reader;
use nc_types::{Bytes, List};
use std::alloc::Global;

/// The value of a digit of base 16 in lower case.
fn hex_value(digit: u8) -> Option<u8>
    ensures some { IfSome result (λ value. (value ≡ hex_value digit) × (value < 16)) }
    ensures none { IfNone result (hex_value digit ≡ 16) }
{
    match digit {
        b'0'..=b'9' => Some(digit - b'0'),
        b'a'..=b'f' => Some(digit - b'a' + 10),
        _ => None,
    }
}

/// A byte that is written as it is.
fn is_plain(byte: u8) -> bool
    ensures { result ≡ is_plain byte }
{
    matches!(byte, 0x20..=0x7E) && byte != b'"' && byte != b'\\'
}

/// A byte that is written by two digits of base 16.
fn is_coded(byte: u8) -> bool
    ensures { result ≡ is_coded byte }
{
    !matches!(byte, 0x20..=0x7E | b'\n' | b'\r')
}

/// The byte that a letter behind a backslash stands for.
fn escape_of(letter: u8) -> Option<u8>
    ensures some { IfSome result (λ byte. (byte ≡ escape_of letter) × (byte < 256)) }
    ensures none { IfNone result (escape_of letter ≡ 256) }
{
    match letter {
        b'"' | b'\\' => Some(letter),
        b'n' => Some(b'\n'),
        b'r' => Some(b'\r'),
        _ => None,
    }
}

/// How many plain bytes stand in front.
fn plain_run(text: &[u8]) -> usize
    ensures count { result ≡ plain_run text.now }
    ensures within { result ≤ length text.now }
{
    for (count, byte) in text.iter().enumerate() {
        if !is_plain(*byte) {
            return count;
        }
    }
    text.len()
}

impl<'t> Reader<'t> {
    /// Reads the plain bytes in front.
    fn plain(&mut self) -> &'t [u8]
        ensures read { (text : List ℕ) → quote_at text Plain self.old ≡ quote_at (text ++ result.now) Plain self.new }
        ensures stops { first_passes is_plain self.new ≡ false }
        ensures within { length self.new ≤ length self.old }
    {
        let (plain, rest) = self.rest.split_at(plain_run(self.rest));
        self.rest = rest;
        plain
    }

    /// Reads the two digits behind `\x`. `Stuck` at the digit that makes no byte which is written so.
    fn coded(&mut self) -> Result<u8, Fault>
        ensures read { (text : List ℕ) → GivesByte text self.new result (quote_at text Hex self.old) }
        ensures shorter { IfOk result (λ byte. length self.new < length self.old) }
    {
        let (first, rest) = self.rest.split_first().ok_or(Fault::Stuck)?;
        let high = hex_value(*first).ok_or(Fault::Stuck)?;
        if high >= 2 && high < 7 {
            return Err(Fault::Stuck);
        }
        self.rest = rest;
        let (second, rest) = rest.split_first().ok_or(Fault::Stuck)?;
        let low = hex_value(*second).ok_or(Fault::Stuck)?;
        if !is_coded(high * 16 + low) {
            return Err(Fault::Stuck);
        }
        self.rest = rest;
        Ok(high * 16 + low)
    }

    /// Reads what stands behind a backslash.
    fn escaped(&mut self) -> Result<u8, Fault>
        ensures read { (text : List ℕ) → GivesByte text self.new result (quote_at text Slash self.old) }
        ensures shorter { IfOk result (λ byte. length self.new < length self.old) }
    {
        if self.takes(b'x') {
            return self.coded();
        }
        let (letter, rest) = self.rest.split_first().ok_or(Fault::Stuck)?;
        let byte = escape_of(*letter).ok_or(Fault::Stuck)?;
        self.rest = rest;
        Ok(byte)
    }

    /// Reads a quoted text as `quote` writes it.
    ///
    /// `Stuck` at the first byte with which no quoted text goes on. `NoMemory` where no room is left for the bytes.
    pub fn quoted(&mut self, alloc: Global) -> Result<Bytes, Fault>
        ensures { Gives self.new result (quoted_at self.old) }
    {
        if !self.takes(b'"') {
            return Err(Fault::Stuck);
        }
        let mut text = Vec::new(alloc);
        loop {
            let plain = self.plain();
            text.extend_from_slice(plain)?;
            if self.takes(b'"') {
                return Ok(List::of(text));
            }
            if !self.takes(b'\\') {
                return Err(Fault::Stuck);
            }
            let byte = self.escaped()?;
            text.push(byte)?;
        }
    }
}

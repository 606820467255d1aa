//! A reader of a text, from left to right: its start, its end, fixed texts and single bytes.
//!
//! `numbers`, `words` and `quotes` add what reads a value.
ghost use Rattle.std.specs.Prelude.{◌≡◌, length, drop, if◌then◌else◌, IfErr};
ghost use Rattle.nc_grammar.specs.declared.fault.Fault.TheVariants.{Stuck};
ghost use Rattle.nc_grammar.specs.Gives.{Gives, GivesBy};
ghost use Rattle.nc_grammar.specs.Label.{label_at};
ghost use Rattle.nc_grammar.specs.Number.{is_digit};
ghost use Rattle.nc_grammar.specs.Reading.{first_passes};
ghost use Rattle.nc_grammar.specs.Maybe.{begins_with};
ghost use Rattle.nc_grammar.specs.Whole.{ended};

use crate::fault::{Fault, Unread};
use std::marker::Model;

/// A text that is read from left to right. In clauses it is the text that is left.
///
/// Where a call finds no value, what is left begins at the first byte with which no value's text goes on.
#[derive(Drop)]
pub struct Reader<'t> {
    pub(crate) rest: &'t [u8],
}

impl<'t> Model for Reader<'t> {
    ghost use Rattle.std.specs.Prelude.{ℕ, List};

    ghost Value = { List ℕ };

    ghost view = { λ r. r.rest.now };
}

impl<'t> Reader<'t> {
    /// A reader at the start of a text.
    pub fn new(text: &'t [u8]) -> Reader<'t>
        ensures { result ≡ text.now }
    {
        Reader { rest: text }
    }

    /// What is left of the text.
    pub fn rest(&self) -> &'t [u8]
        ensures { result.now ≡ self.now }
    {
        self.rest
    }

    /// How many bytes are left.
    pub fn left(&self) -> usize
        ensures { result ≡ length self.now }
    {
        self.rest.len()
    }

    /// Ends the reading of a whole text: what was read, where nothing of the text is left.
    ///
    /// Else `Bad` with the place where what is left begins, or `NoMemory` as it was.
    pub fn end<T: Drop>(&self, text: &[u8], outcome: Result<T, Fault>) -> Result<T, Unread>
        ensures { result ≡ ended (length text.now) self.now outcome }
    {
        let place = text.len().saturating_sub(self.rest.len());
        match outcome {
            Ok(value) if self.rest.is_empty() => Ok(value),
            Ok(_) | Err(Fault::Stuck) => Err(Unread::Bad { place }),
            Err(Fault::NoMemory) => Err(Unread::NoMemory),
        }
    }

    /// Reads a fixed text. `Stuck` at the first byte that differs.
    pub fn label(&mut self, label: &[u8]) -> Result<(), Fault>
        ensures read { Gives self.new result (label_at label.now self.old) }
        ensures fault { IfErr result (λ fault. fault ≡ Stuck) }
    {
        for byte in label {
            match self.rest {
                [first, rest @ ..] if *first == *byte => self.rest = rest,
                _ => return Err(Fault::Stuck),
            }
        }
        Ok(())
    }

    /// Whether what is left begins with a byte.
    pub fn begins_with(&self, byte: u8) -> bool
        ensures { result ≡ begins_with byte self.now }
    {
        match self.rest {
            [first, ..] => *first == byte,
            [] => false,
        }
    }

    /// Whether what is left begins with a decimal digit.
    pub fn begins_with_digit(&self) -> bool
        ensures { result ≡ first_passes is_digit self.now }
    {
        match self.rest {
            [first, ..] => first.is_ascii_digit(),
            [] => false,
        }
    }

    /// Reads a byte, if the text begins with it, and tells whether it does.
    pub fn takes(&mut self, byte: u8) -> bool
        ensures told { result ≡ begins_with byte self.old }
        ensures moved { self.new ≡ (if begins_with byte self.old then drop 1 self.old else self.old) }
    {
        match self.rest {
            [first, rest @ ..] if *first == byte => {
                self.rest = rest;
                true
            }
            _ => false,
        }
    }
}

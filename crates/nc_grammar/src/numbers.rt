//! Reads numbers in decimal.
//!
//! `reader` stands below. Numbers as they are written have no leading zeros; ids from outside may have them.
ghost use Rattle.std.specs.Prelude.{◌≡◌, ◌≤◌, ◌+◌, ◌*◌, ◌-◌, nat_le, ◌&&◌, true, false, IfOk, IfErr, IfSome, IfNone};
ghost use Rattle.nc_grammar.specs.declared.fault.Fault.TheVariants.{Stuck};
ghost use Rattle.nc_grammar.specs.Gives.{Gives, GivesBy};
ghost use Rattle.nc_grammar.specs.Number.{is_digit, number_at, more_digits_at};
ghost use Rattle.nc_grammar.specs.Digits.{digits_from, digits_at};

use crate::fault::Fault;
use crate::reader::Reader;

/// A number with a digit behind it, where the byte is a digit and the whole stays within a limit.
fn with_digit(value: u64, byte: u8, limit: u64) -> Option<u64>
    ensures some { IfSome result (λ whole. (is_digit byte ≡ true) × (whole ≡ value * 10 + (byte - 48)) × (whole ≤ limit)) }
    ensures none { IfNone result ((is_digit byte && nat_le (value * 10 + (byte - 48)) limit) ≡ false) }
{
    if !byte.is_ascii_digit() {
        return None;
    }
    let whole = value.checked_mul(10)?.checked_add((byte - b'0') as u64)?;
    if whole <= limit { Some(whole) } else { None }
}

impl<'t> Reader<'t> {
    /// Reads a number without leading zeros, up to a limit.
    ///
    /// `Stuck` where no digit stands, or at a first digit above the limit. A digit that would pass the limit is left, as is one behind `0`.
    pub fn number(&mut self, limit: u64) -> Result<u64, Fault>
        ensures within { IfOk result (λ n. n ≤ limit) }
        ensures read { Gives self.new result (number_at limit self.old) }
        ensures fault { IfErr result (λ fault. fault ≡ Stuck) }
    {
        let mut value = match self.rest {
            [first, rest @ ..] if let Some(digit) = with_digit(0, *first, limit) => {
                self.rest = rest;
                digit
            }
            _ => return Err(Fault::Stuck),
        };
        while let [first, rest @ ..] = self.rest {
            match with_digit(value, *first, limit) {
                Some(more) if value > 0 => value = more,
                _ => break,
            }
            self.rest = rest;
        }
        Ok(value)
    }

    /// Reads a number of 1 to `most` digits, up to a limit. The first digits may be zeros.
    ///
    /// `Stuck` where no digit stands, or at a first digit above the limit. A digit that would pass `most` or the limit is left.
    pub fn digits(&mut self, most: usize, limit: u64) -> Result<u64, Fault>
        ensures within { IfOk result (λ n. n ≤ limit) }
        ensures read { Gives self.new result (digits_at most limit self.old) }
        ensures fault { IfErr result (λ fault. fault ≡ Stuck) }
    {
        let mut value = match self.rest {
            [first, rest @ ..] if most > 0 && let Some(digit) = with_digit(0, *first, limit) => {
                self.rest = rest;
                digit
            }
            _ => return Err(Fault::Stuck),
        };
        let mut count = 1;
        while let [first, rest @ ..] = self.rest {
            match with_digit(value, *first, limit) {
                Some(more) if count < most => value = more,
                _ => break,
            }
            count += 1;
            self.rest = rest;
        }
        Ok(value)
    }
}

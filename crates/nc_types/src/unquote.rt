//! Quoted texts read back: any of them, not only what `quote` writes.
//!
//! `text` stands above and hands this out. What a quoted text stands for is defined in `specs/`, piece by piece.
ghost use Rattle.std.specs.Prelude.{◌≡◌, ℕ, ◌+◌, ◌*◌, ◌<◌, ◌≤◌, ◌≢◌, ◌∷◌, [], length, IfOk, IfErr, IfSome, IfNone};
ghost use Rattle.std.specs.Char.{digit_value};
ghost use Rattle.nc_types.specs.declared.unquote.UnquoteFault.TheVariants.{NoMemory as NoMemoryLeft};
ghost use Rattle.nc_types.specs.Unquote.{IsLetterOf, IsNext, BeginsNoPiece, left_at_fault, IsQuoted, IsFaultOf};

use crate::list::{Bytes, List, NoMemory};
use std::alloc::Global;

/// Why a text couldn't be read as a quoted text.
#[derive(Clone, Copy, Debug, PartialEq, Eq)]
pub enum UnquoteFault {
    /// It is none. The place, counted from 0, is 0 where no `"` begins it, the backslash of the first bad escape,
    /// the byte behind the closing sign where more follows, or the text's length where it isn't closed.
    Bad { at: usize },
    NoMemory,
}

impl From<NoMemory> for UnquoteFault {
    ghost from_gives = { λ _ e. e ≡ NoMemoryLeft };

    fn from(_: NoMemory) -> Self {
        UnquoteFault::NoMemory
    }
}

/// The value of a digit of base 16, of either case.
fn value_of(digit: u8) -> Option<u8>
    ensures some { IfSome result (λ value. (value ≡ digit_value digit) × (value < 16)) }
    ensures none { IfNone result (16 ≤ digit_value digit) }
{
    match digit {
        b'0'..=b'9' => Some(digit - b'0'),
        b'a'..=b'f' => Some(digit - b'a' + 10),
        b'A'..=b'F' => Some(digit - b'A' + 10),
        _ => None,
    }
}

/// The byte that a letter behind a backslash stands for.
fn byte_of_letter(letter: u8) -> Option<u8>
    ensures some { IfSome result (λ byte. IsLetterOf byte letter) }
    ensures none { IfNone result ((byte : ℕ) → IsLetterOf byte letter → ⊥) }
{
    match letter {
        b'"' => Some(b'"'),
        b'\\' => Some(b'\\'),
        b'n' => Some(b'\n'),
        b'r' => Some(b'\r'),
        b't' => Some(b'\t'),
        _ => None,
    }
}

/// The first byte of a text, and the text behind it.
fn first(text: &[u8]) -> Option<(u8, &[u8])>
    ensures some { IfSome result (λ parts. text.now ≡ parts.0 ∷ parts.1.now) }
    ensures none { IfNone result (text.now ≡ []) }
{
    let (byte, rest) = text.split_first()?;
    Some((*byte, rest))
}

/// The byte that the two digits of an escape stand for, whose `\x` stands before the text, and the text behind it.
fn next_digits(text: &[u8]) -> Option<(u8, &[u8])>
    ensures some { IfSome result (λ next. IsNext (92 ∷ 120 ∷ text.now) next.0 next.1.now) }
    ensures none { IfNone result (BeginsNoPiece (92 ∷ 120 ∷ text.now)) }
{
    let (high, behind) = first(text)?;
    let (low, rest) = first(behind)?;
    let high = value_of(high)?;
    let low = value_of(low)?;
    Some((high * 16 + low, rest))
}

/// The byte that an escape stands for, whose backslash stands before the text, and the text behind it.
fn next_escape(text: &[u8]) -> Option<(u8, &[u8])>
    ensures some { IfSome result (λ next. IsNext (92 ∷ text.now) next.0 next.1.now) }
    ensures none { IfNone result (BeginsNoPiece (92 ∷ text.now)) }
{
    let (letter, rest) = first(text)?;
    if letter == b'x' {
        return next_digits(rest);
    }
    let byte = byte_of_letter(letter)?;
    Some((byte, rest))
}

/// The byte that the first piece of a text stands for, and the text behind that piece.
fn next_piece(text: &[u8]) -> Option<(u8, &[u8])>
    ensures some { IfSome result (λ next. IsNext text.now next.0 next.1.now) }
    ensures none { IfNone result (BeginsNoPiece text.now) }
{
    let (byte, rest) = first(text)?;
    match byte {
        b'"' => None,
        b'\\' => next_escape(rest),
        _ => Some((byte, rest)),
    }
}

/// Where a text stops being a quoted text, if it does, whose whole pieces end before `rest`.
fn place_of_fault(text: &[u8], rest: &[u8]) -> Option<usize>
    requires { length rest.now ≤ length text.now }
    ensures some { IfSome result (λ at. (rest.now ≢ 34 ∷ []) × (at + left_at_fault rest.now ≡ length text.now)) }
    ensures none { IfNone result (rest.now ≡ 34 ∷ []) }
{
    match rest.split_first() {
        Some((b'"', [])) => None,
        Some((b'"', more)) => Some(text.len() - more.len()),
        _ => Some(text.len() - rest.len()),
    }
}

/// The bytes that a quoted text stands for.
///
/// Between the signs `"` the escapes are `\"`, `\\`, `\n`, `\r`, `\t`, and `\x` with two digits of base 16 of either case.
/// Any other byte but `"` and `\` stands for itself.
pub fn unquote(alloc: Global, text: &[u8]) -> Result<Bytes, UnquoteFault>
    ensures ok { IfOk result (λ bytes. IsQuoted text.now bytes) }
    ensures err { IfErr result (λ fault. IsFaultOf text.now fault) }
{
    let mut rest = match text.split_first() {
        Some((b'"', rest)) => rest,
        _ => return Err(UnquoteFault::Bad { at: 0 }),
    };
    let mut bytes = List::new(alloc);
    while let Some((byte, behind)) = next_piece(rest) {
        bytes.push(byte)?;
        rest = behind;
    }
    match place_of_fault(text, rest) {
        Some(at) => Err(UnquoteFault::Bad { at }),
        None => Ok(bytes),
    }
}

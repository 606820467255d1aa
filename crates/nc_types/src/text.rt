//! Numbers in decimal, and bytes between quotation marks.
//!
//! The journal writes both; docs/JOURNAL.md says how they read.
ghost use Rattle.std.specs.Prelude.{◌≡◌, ◌+◌, ◌∷◌, ◌++◌, [], ◌<◌, IfOk, OnOk, OnErr, IfSome, IfNone, ◌≤◌, ℕ, take};
ghost use Rattle.std.specs.Fmt.{decimal};
ghost use Rattle.std.specs.Char.{digit_value};
ghost use Rattle.nc_types.specs.Text.{IsBehind, IsDecimal, begins_slash, hex_digit, quoted_byte, quoted};

use crate::list::{Bytes, List, NoMemory};
pub use crate::unquote::{UnquoteFault, unquote};
use std::alloc::Global;

/// The text as it was when it had `before` bytes, where something could not be put behind it.
pub(crate) fn undone(
    out: &mut Vec<u8>,
    before: usize,
    put: Result<(), NoMemory>,
) -> Result<(), NoMemory>
    ensures given { result ≡ put }
    ensures ok { OnOk put (out.new.items ≡ out.old.items) }
    ensures err { OnErr put (out.new.items ≡ take before out.old.items) }
{
    if put.is_err() {
        out.truncate(before);
    }
    put
}

fn put_digit(out: &mut Vec<u8>, digit: u8) -> Result<(), NoMemory>
    requires { digit < 10 }
    ensures ok { OnOk result (out.new.items ≡ out.old.items ++ (48 + digit) ∷ []) }
    ensures err { OnErr result (out.new.items ≡ out.old.items) }
{
    out.push(b'0' + digit)?;
    Ok(())
}

/// The digits of a number behind a text. Without memory some of them may stand there.
fn put_digits(out: &mut Vec<u8>, n: u64) -> Result<(), NoMemory>
    ensures ok { OnOk result (out.new.items ≡ out.old.items ++ decimal n) }
    ensures err { OnErr result (IsBehind out.old.items out.new.items) }
{
    if n < 10 {
        return put_digit(out, n as u8);
    }
    put_digits(out, n / 10)?;
    put_digit(out, (n % 10) as u8)
}

/// Writes a number in decimal, without leading zeros, behind a text. Without memory the text stays as it was.
pub fn put_decimal(out: &mut Vec<u8>, n: u64) -> Result<(), NoMemory>
    ensures ok { OnOk result (out.new.items ≡ out.old.items ++ decimal n) }
    ensures err { OnErr result (out.new.items ≡ out.old.items) }
{
    let before = out.len();
    let put = put_digits(out, n);
    undone(out, before, put)
}

/// A number in decimal, without leading zeros.
pub fn decimal(alloc: Global, n: u64) -> Result<Bytes, NoMemory>
    ensures { IfOk result (λ text. text ≡ decimal n) }
{
    let mut out = Vec::new(alloc);
    put_decimal(&mut out, n)?;
    Ok(List::of(out))
}

/// Whether a text begins with a slash, as each path does (RFC 9110).
pub fn begins_slash(text: &[u8]) -> bool
    ensures { result ≡ begins_slash text.now }
{
    match text {
        [] => false,
        [byte, ..] => *byte == b'/',
    }
}

/// The digit that a byte is.
fn digit_of(byte: u8) -> Option<u64>
    ensures some { IfSome result (λ digit. (digit ≡ digit_value byte) × (digit < 10)) }
    ensures none { IfNone result (10 ≤ digit_value byte) }
{
    match byte {
        b'0'..=b'9' => Some(u64::from(byte - b'0')),
        _ => None,
    }
}

/// The number that a text of 1 to 20 decimal digits stands for, where it is at most `limit`; leading zeros count for nothing.
pub fn read_decimal(text: &[u8], limit: u64) -> Option<u64>
    ensures some { IfSome result (λ n. IsDecimal text.now n × (n ≤ limit)) }
    ensures none { IfNone result ((n : ℕ) → IsDecimal text.now n → n ≤ limit → ⊥) }
{
    if text.is_empty() || text.len() > 20 {
        return None;
    }
    let mut value = 0u64;
    for byte in text {
        let digit = digit_of(*byte)?;
        value = value.checked_mul(10)?.checked_add(digit)?;
    }
    if value <= limit { Some(value) } else { None }
}

fn hex_digit(n: u8) -> u8
    requires { n < 16 }
    ensures { result ≡ hex_digit n }
{
    if n < 10 { b'0' + n } else { b'a' + (n - 10) }
}

fn put_quoted_byte(out: &mut Vec<u8>, byte: u8) -> Result<(), NoMemory>
    ensures ok { OnOk result (out.new.items ≡ out.old.items ++ quoted_byte byte) }
    ensures err { OnErr result (out.new.items ≡ out.old.items) }
{
    match byte {
        b'"' => out.extend_from_slice(b"\\\"")?,
        b'\\' => out.extend_from_slice(b"\\\\")?,
        b'\n' => out.extend_from_slice(b"\\n")?,
        b'\r' => out.extend_from_slice(b"\\r")?,
        0x20..=0x7E => out.push(byte)?,
        _ => {
            let high = hex_digit(byte / 16);
            let low = hex_digit(byte % 16);
            out.extend_from_slice(&[b'\\', b'x', high, low])?
        }
    }
    Ok(())
}

/// Bytes between quotation marks behind a text. Without memory a part of that may stand there.
fn put_all_quoted(out: &mut Vec<u8>, bytes: &[u8]) -> Result<(), NoMemory>
    ensures ok { OnOk result (out.new.items ≡ out.old.items ++ quoted bytes.now) }
    ensures err { OnErr result (IsBehind out.old.items out.new.items) }
{
    out.push(b'"')?;
    for byte in bytes {
        put_quoted_byte(out, *byte)?;
    }
    out.push(b'"')?;
    Ok(())
}

/// Writes bytes between quotation marks behind a text, with escapes for what isn't printable.
/// Without memory the text stays as it was.
pub fn put_quoted(out: &mut Vec<u8>, bytes: &[u8]) -> Result<(), NoMemory>
    ensures ok { OnOk result (out.new.items ≡ out.old.items ++ quoted bytes.now) }
    ensures err { OnErr result (out.new.items ≡ out.old.items) }
{
    let before = out.len();
    let put = put_all_quoted(out, bytes);
    undone(out, before, put)
}

/// Bytes between quotation marks, with escapes for what isn't printable.
pub fn quote(alloc: Global, bytes: &[u8]) -> Result<Bytes, NoMemory>
    ensures { IfOk result (λ text. text ≡ quoted bytes.now) }
{
    let mut out = Vec::new(alloc);
    put_quoted(&mut out, bytes)?;
    Ok(List::of(out))
}

//! Bytes as pairs of hexadecimal digits.

use nc_types::NoMemory;
use nc_types::text::{put_decimal, read_decimal};
use std::alloc::Global;

/// The value of a hexadecimal digit.
fn value_of(byte: u8) -> u8 {
    match byte {
        b'0'..=b'9' => byte - b'0',
        b'a'..=b'f' => byte - b'a' + 10,
        _ => 0,
    }
}

/// The bytes that pairs of digits stand for.
fn put_decoded(out: &mut Vec<u8>, digits: &[u8]) -> Result<(), NoMemory> {
    for pair in digits.chunks(2) {
        if let [high, low] = pair {
            out.push((value_of(*high) & 15) * 16 + (value_of(*low) & 15))?;
        }
    }
    Ok(())
}

/// The bytes of pairs of digits, as often as the number behind a `*` says.
fn put_repeated(out: &mut Vec<u8>, text: &str) -> Result<(), NoMemory> {
    let (digits, times) = text.split_once('*').unwrap_or((text, "1"));
    let times = read_decimal(times.as_bytes(), 1_000_000).unwrap_or(0);
    for _ in 0..times {
        put_decoded(out, digits.as_bytes())?;
    }
    Ok(())
}

/// The bytes that a text stands for.
pub fn decoded(alloc: Global, text: &str) -> Result<Vec<u8>, NoMemory> {
    let mut out = Vec::new(alloc);
    for part in text.split('+') {
        put_repeated(&mut out, part)?;
    }
    Ok(out)
}

fn digit(value: u8) -> u8 {
    if value < 10 {
        b'0' + value
    } else {
        b'a' + ((value - 10) & 7)
    }
}

/// The two digits of each byte.
pub fn put_digits(out: &mut Vec<u8>, bytes: &[u8]) -> Result<(), NoMemory> {
    for byte in bytes {
        out.push(digit(byte / 16))?;
        out.push(digit(byte % 16))?;
    }
    Ok(())
}

/// How many bytes of a long text are shown.
const SHOWN: usize = 16;

/// The digits of bytes; of more than [`SHOWN`] the first of them, `..`, and their number.
pub fn put_bytes(out: &mut Vec<u8>, bytes: &[u8]) -> Result<(), NoMemory> {
    if bytes.len() <= SHOWN {
        return put_digits(out, bytes);
    }
    put_digits(out, &bytes[..SHOWN])?;
    out.extend_from_slice(b".. ")?;
    put_decimal(out, bytes.len() as u64)
}

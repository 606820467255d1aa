//! The bytes that a text of a row stands for.
use crate::put::put;
use nc_types::NoMemory;
use nc_types::text::read_decimal;
use std::alloc::Global;

/// The value of a digit of base 16.
fn digit(byte: u8) -> u8 {
    match byte {
        b'0'..=b'9' => byte - b'0',
        b'A'..=b'F' => byte - b'A' + 10,
        _ => 0,
    }
}

/// Puts the byte that two digits of base 16 stand for.
fn put_digits(out: &mut Vec<u8>, high: u8, low: u8) -> Result<(), NoMemory> {
    out.push((digit(high) & 15) * 16 + (digit(low) & 15))?;
    Ok(())
}

/// Puts what stands behind a `%` that is no repetition.
fn put_escaped(out: &mut Vec<u8>, piece: &[u8]) -> Result<(), NoMemory> {
    let Some((first, rest)) = piece.split_first() else {
        return Ok(());
    };
    if *first == b'r' {
        put(out, b"\r")?;
        return put(out, rest);
    }
    if *first == b'n' {
        put(out, b"\n")?;
        return put(out, rest);
    }
    let Some((second, rest)) = rest.split_first() else {
        return Ok(());
    };
    put_digits(out, *first, *second)?;
    put(out, rest)
}

/// Puts a text without repetitions.
fn put_plain(out: &mut Vec<u8>, text: &str) -> Result<(), NoMemory> {
    let mut pieces = text.split('%');
    put(out, pieces.next().unwrap_or("").as_bytes())?;
    for piece in pieces {
        put_escaped(out, piece.as_bytes())?;
    }
    Ok(())
}

/// Puts a text `N TEXT`, N times.
fn put_repeated(alloc: Global, out: &mut Vec<u8>, text: &str) -> Result<(), NoMemory> {
    let (times, text) = text.split_once(' ').unwrap_or(("0", ""));
    let mut once = Vec::new(alloc);
    put_plain(&mut once, text)?;
    for _ in 0..read_decimal(times.as_bytes(), 1_000_000).unwrap_or(0) {
        put(out, &once)?;
    }
    Ok(())
}

/// The bytes of a text.
pub fn bytes_of(alloc: Global, text: &str) -> Result<Vec<u8>, NoMemory> {
    let mut out = Vec::new(alloc);
    let mut pieces = text.split("%{");
    put_plain(&mut out, pieces.next().unwrap_or(""))?;
    for piece in pieces {
        let (repeated, rest) = piece.split_once('}').unwrap_or((piece, ""));
        put_repeated(alloc, &mut out, repeated)?;
        put_plain(&mut out, rest)?;
    }
    Ok(out)
}

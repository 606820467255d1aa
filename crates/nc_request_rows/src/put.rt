//! Texts and numbers behind a text, and bytes that stand for themselves in no line.

use nc_types::NoMemory;
use nc_types::text::put_decimal;

/// A word, and a text behind it.
pub fn put_text(out: &mut Vec<u8>, word: &[u8], text: &[u8]) -> Result<(), NoMemory> {
    out.extend_from_slice(word)?;
    out.extend_from_slice(text)?;
    Ok(())
}

/// A word, and a number behind it.
pub fn put_number(out: &mut Vec<u8>, word: &[u8], number: u64) -> Result<(), NoMemory> {
    out.extend_from_slice(word)?;
    put_decimal(out, number)
}

/// A word, where something holds.
pub fn put_if(out: &mut Vec<u8>, holds: bool, word: &[u8]) -> Result<(), NoMemory> {
    if holds {
        out.extend_from_slice(word)?;
    }
    Ok(())
}

/// The value of a hexadecimal digit.
fn digit(byte: u8) -> u8 {
    match byte {
        b'0'..=b'9' => byte - b'0',
        b'A'..=b'F' => byte - b'A' + 10,
        _ => 0,
    }
}

/// A text, in which `%` and two digits stand for a byte.
pub fn put_decoded(out: &mut Vec<u8>, text: &str) -> Result<(), NoMemory> {
    let mut pieces = text.split('%');
    put_text(out, pieces.next().unwrap_or("").as_bytes(), b"")?;
    for piece in pieces {
        match piece.as_bytes() {
            [high, low, rest @ ..] => {
                out.push((digit(*high) & 15) * 16 + (digit(*low) & 15))?;
                put_text(out, rest, b"")?;
            }
            rest => put_text(out, rest, b"")?,
        }
    }
    Ok(())
}

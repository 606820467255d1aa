//! Bytes behind a text, as rows show them.
use nc_types::NoMemory;
use nc_types::text::put_decimal;

/// Puts bytes behind a text.
pub fn put(out: &mut Vec<u8>, bytes: &[u8]) -> Result<(), NoMemory> {
    out.extend_from_slice(bytes)?;
    Ok(())
}

/// A digit of base 16.
fn hex_digit(n: u8) -> u8 {
    let low = n % 16;
    if low < 10 {
        b'0' + low
    } else {
        b'A' + (low - 10)
    }
}

/// Puts bytes as a row spells them.
pub fn put_spelled(out: &mut Vec<u8>, bytes: &[u8]) -> Result<(), NoMemory> {
    for byte in bytes {
        match *byte {
            b'\r' => put(out, b"%r")?,
            b'\n' => put(out, b"%n")?,
            b'%' => put(out, b"%25")?,
            0x20..=0x7E => out.push(*byte)?,
            _ => put(out, &[b'%', hex_digit(*byte / 16), hex_digit(*byte)])?,
        }
    }
    Ok(())
}

/// Puts bytes as a row spells them, or how many there are where there are more than 40.
pub fn put_short(out: &mut Vec<u8>, bytes: &[u8]) -> Result<(), NoMemory> {
    if bytes.len() <= 40 {
        return put_spelled(out, bytes);
    }
    put(out, b"(")?;
    put_decimal(out, bytes.len() as u64)?;
    put(out, b")")
}

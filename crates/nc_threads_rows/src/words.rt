//! Words of steps and their answers.
use nc_types::NoMemory;
use nc_types::text::{put_decimal, read_decimal};

/// The number that a text stands for, at most 100,000,000, which any other text stands for.
pub fn number_of(text: &str) -> u64 {
    read_decimal(text.as_bytes(), 100_000_000).unwrap_or(100_000_000)
}

/// Puts some bytes behind a text.
pub fn put(out: &mut Vec<u8>, bytes: &[u8]) -> Result<(), NoMemory> {
    out.extend_from_slice(bytes)?;
    Ok(())
}

/// Puts a number behind a text, with its name before it.
pub fn put_count(out: &mut Vec<u8>, name: &[u8], count: u64) -> Result<(), NoMemory> {
    put(out, name)?;
    put_decimal(out, count)
}

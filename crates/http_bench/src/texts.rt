//! The bytes that readers are fed.
use nc_types::NoMemory;
use nc_types::text::put_decimal;
use std::alloc::Global;

/// The longest chunk line.
const LINE: usize = 1_024;

/// Puts bytes behind a text.
fn put(out: &mut Vec<u8>, bytes: &[u8]) -> Result<(), NoMemory> {
    out.extend_from_slice(bytes)?;
    Ok(())
}

/// Puts so many bytes of a body behind a text.
fn put_body(out: &mut Vec<u8>, len: u64) -> Result<(), NoMemory> {
    for _ in 0..len {
        out.push(b'x')?;
    }
    Ok(())
}

/// A body of so many bytes.
pub fn body(alloc: Global, len: u64) -> Result<Vec<u8>, NoMemory> {
    let mut out = Vec::new(alloc);
    put_body(&mut out, len)?;
    Ok(out)
}

/// So many requests with bodies of so many bytes, one behind the other.
pub fn requests(alloc: Global, len: u64, count: u64) -> Result<Vec<u8>, NoMemory> {
    let mut out = Vec::new(alloc);
    for _ in 0..count {
        put(
            &mut out,
            b"POST /pub?id=test HTTP/1.1\r\nHost: localhost:8080\r\nContent-Length: ",
        )?;
        put_decimal(&mut out, len)?;
        put(&mut out, b"\r\n\r\n")?;
        put_body(&mut out, len)?;
    }
    Ok(out)
}

/// The head of a request with a body in chunks.
pub fn chunked_head() -> &'static [u8] {
    b"POST /pub?id=test HTTP/1.1\r\nHost: localhost:8080\r\nTransfer-Encoding: chunked\r\n\r\n"
}

/// A chunk of one byte with the longest line.
pub fn long_chunk(alloc: Global) -> Result<Vec<u8>, NoMemory> {
    let mut out = Vec::new(alloc);
    put(&mut out, b"1;")?;
    for _ in 0..LINE - 4 {
        out.push(b'a')?;
    }
    put(&mut out, b"\r\nx\r\n")?;
    Ok(out)
}

//! Rows of what a client sends. What it comes to is `message`, `reply` with its bytes, `closed`, or `failed`, which is the last.

use crate::hex::{decoded, put_bytes};
use nc_types::NoMemory;
use nc_ws::{FrameFault, FrameIn, Framer, LimitedFramer, PipeFramer};
use std::alloc::Global;

fn put_item(out: &mut Vec<u8>, item: &FrameIn) -> Result<(), NoMemory> {
    match item {
        FrameIn::Message => out.extend_from_slice(b" message")?,
        FrameIn::Reply(bytes) => {
            out.extend_from_slice(b" reply:")?;
            put_bytes(out, bytes.as_slice())?;
        }
        FrameIn::Closed => out.extend_from_slice(b" closed")?,
    }
    Ok(())
}

/// What one piece came to; false where the framer failed.
fn put_take<F: Framer>(framer: &mut F, piece: &[u8], out: &mut Vec<u8>) -> Result<bool, NoMemory> {
    match framer.take(piece) {
        Ok(list) => {
            for item in list.as_slice() {
                put_item(out, item)?;
            }
            Ok(true)
        }
        Err(FrameFault::Failed) => {
            out.extend_from_slice(b" failed")?;
            Ok(false)
        }
        Err(FrameFault::NoMemory) => Err(NoMemory),
    }
}

/// What pieces came to, one after the other, with `/` behind each.
fn put_pieces<F: Framer>(alloc: Global, pieces: &str, out: &mut Vec<u8>) -> Result<(), NoMemory> {
    let mut framer = F::begin(alloc, 0)?;
    for piece in pieces.split(' ') {
        let piece = decoded(alloc, piece)?;
        if !put_take(&mut framer, &piece, out)? {
            return Ok(());
        }
        out.extend_from_slice(b" /")?;
    }
    Ok(())
}

/// What bytes came to that were taken one by one.
fn put_each(alloc: Global, bytes: &[u8], out: &mut Vec<u8>) -> Result<(), NoMemory> {
    let mut framer = PipeFramer::begin(alloc, 0)?;
    for byte in bytes {
        if !put_take(&mut framer, &[*byte], out)? {
            return Ok(());
        }
    }
    Ok(())
}

/// What bytes came to in one piece, and then one by one.
fn put_both(alloc: Global, text: &str, out: &mut Vec<u8>) -> Result<(), NoMemory> {
    let bytes = decoded(alloc, text)?;
    let mut framer = PipeFramer::begin(alloc, 0)?;
    put_take(&mut framer, &bytes, out)?;
    out.extend_from_slice(b" |")?;
    put_each(alloc, &bytes, out)
}

/// What a row of a client's bytes comes to, if it is one.
pub fn put_row(alloc: Global, word: &str, rest: &str, out: &mut Vec<u8>) -> Result<bool, NoMemory> {
    if word == "both" {
        put_both(alloc, rest, out)?;
    } else if word == "pieces" {
        put_pieces::<PipeFramer>(alloc, rest, out)?;
    } else if word == "limited" {
        put_pieces::<LimitedFramer<1>>(alloc, rest, out)?;
    } else {
        return Ok(false);
    }
    Ok(true)
}

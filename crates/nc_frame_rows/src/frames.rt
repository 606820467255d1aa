//! Rows of frames and payloads.

use crate::hex::{decoded, put_bytes};
use nc_frame::laws::frame_is_read;
use nc_frame::{close_text, frame_text, meta_text};
use nc_types::NoMemory;
use nc_types::text::quote;
use std::alloc::Global;

/// The frame of a payload.
fn put_frame(alloc: Global, payload: &[u8], out: &mut Vec<u8>) -> Result<(), NoMemory> {
    let frame = frame_text(alloc, payload)?;
    out.push(b' ')?;
    put_bytes(out, frame.as_slice())
}

fn put_close(alloc: Global, out: &mut Vec<u8>) -> Result<(), NoMemory> {
    let frame = close_text(alloc)?;
    out.push(b' ')?;
    put_bytes(out, frame.as_slice())
}

/// A content type, where a text isn't `-`.
fn content_type(text: &str) -> Option<&[u8]> {
    if text == "-" {
        None
    } else {
        Some(text.as_bytes())
    }
}

/// The payload of an id, a content type or `-`, and a body, each but the last ended by `|`, between quotes.
fn put_meta(alloc: Global, row: &str, out: &mut Vec<u8>) -> Result<(), NoMemory> {
    let (id, rest) = row.split_once('|').unwrap_or((row, ""));
    let (kind, body) = rest.split_once('|').unwrap_or((rest, ""));
    let payload = meta_text(alloc, id.as_bytes(), content_type(kind), body.as_bytes())?;
    out.push(b' ')?;
    out.extend_from_slice(quote(alloc, payload.as_slice())?.as_slice())?;
    Ok(())
}

/// The frame of a payload with an id, without a content type.
fn put_meta_frame(alloc: Global, row: &str, out: &mut Vec<u8>) -> Result<(), NoMemory> {
    let (id, body) = row.split_once('|').unwrap_or((row, ""));
    let body = decoded(alloc, body)?;
    let payload = meta_text(alloc, id.as_bytes(), None, &body)?;
    put_frame(alloc, payload.as_slice(), out)
}

/// What a row of frames or payloads comes to.
pub fn put_row(alloc: Global, word: &str, rest: &str, out: &mut Vec<u8>) -> Result<(), NoMemory> {
    frame_is_read();
    if word == "frame" {
        let payload = decoded(alloc, rest)?;
        put_frame(alloc, &payload, out)
    } else if word == "close" {
        put_close(alloc, out)
    } else if word == "meta" {
        put_meta(alloc, rest, out)
    } else if word == "metaframe" {
        put_meta_frame(alloc, rest, out)
    } else {
        out.extend_from_slice(b" no such row")?;
        Ok(())
    }
}

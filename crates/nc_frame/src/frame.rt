//! The frame of a payload, and the close frame.
ghost use Rattle.std.specs.Prelude.{◌≡◌, ◌++◌, ◌∷◌, [], IfOk, OnOk, length};
ghost use Rattle.std.specs.Str.{is_utf8};
ghost use Rattle.nc_frame.specs.Frame.{length_bytes, frame, frame_of, close_frame};
ghost use Rattle.nc_frame.specs.Opcode.{number};

use nc_types::{Bytes, List, NoMemory};
use std::alloc::Global;
use std::str;

/// FIN without the reserved bits.
const FINAL: u8 = 0x80;

/// Writes a length behind a text, in the shortest form. Without memory a part of it may stand there.
fn put_length(out: &mut Vec<u8>, len: usize) -> Result<(), NoMemory>
    ensures { OnOk result (out.new.items ≡ out.old.items ++ length_bytes len) }
{
    if len <= 125 {
        out.push(len as u8)?;
    } else if len <= 65_535 {
        out.push(126)?;
        out.extend_from_slice(&(len as u16).to_be_bytes())?;
    } else {
        out.push(127)?;
        out.extend_from_slice(&(len as u64).to_be_bytes())?;
    }
    Ok(())
}

/// What a frame carries.
#[derive(Clone, Copy)]
enum Opcode {
    Text,
    Binary,
    Close,
}

impl Opcode {
    fn number(self) -> u8
        ensures { result ≡ number self }
    {
        match self {
            Opcode::Text => 1,
            Opcode::Binary => 2,
            Opcode::Close => 8,
        }
    }
}

fn is_text(payload: &[u8]) -> bool
    ensures { result ≡ is_utf8 payload.now }
{
    str::from_utf8(payload).is_ok()
}

/// The final, unmasked frame of an opcode and a payload.
fn frame(alloc: Global, opcode: Opcode, payload: &[u8]) -> Result<Bytes, NoMemory>
    ensures { IfOk result (λ text. text ≡ frame (number opcode) payload.now) }
{
    let mut out = Vec::new(alloc);
    out.push(FINAL + opcode.number())?;
    put_length(&mut out, payload.len())?;
    out.extend_from_slice(payload)?;
    Ok(List::of(out))
}

/// The one final, unmasked frame of a payload (RFC 6455, section 5.2): a text frame where the payload is UTF-8, else a
/// binary one, with its length in the shortest form.
pub fn frame_text(alloc: Global, payload: &[u8]) -> Result<Bytes, NoMemory>
    ensures { IfOk result (λ text. text ≡ frame_of payload.now) }
{
    let opcode = if is_text(payload) {
        Opcode::Text
    } else {
        Opcode::Binary
    };
    frame(alloc, opcode, payload)
}

/// The close frame of the status code 1000, a normal closure (RFC 6455, sections 5.5.1 and 7.4.1).
pub fn close_text(alloc: Global) -> Result<Bytes, NoMemory>
    ensures { IfOk result (λ text. text ≡ close_frame) }
{
    frame(alloc, Opcode::Close, &1000u16.to_be_bytes())
}

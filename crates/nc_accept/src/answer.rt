//! The server's answer to an opening (RFC 6455, section 4.2.2).
ghost use Rattle.std.specs.Prelude.{◌≡◌, ◌++◌, IfOk, OnOk};
ghost use Rattle.nc_accept.specs.Answer.{line, accept_value, protocol_line, answer_text};

use crate::opening::Opening;
use base64::engine::general_purpose::STANDARD;
use nc_types::{Bytes, List, NoMemory};
use sha1::Sha1;
use std::alloc::Global;

/// What is put behind a key before it is digested.
const FIXED: &[u8; 36] = b"258EAFA5-E914-47DA-95CA-C5AB0DC85B11";

/// The value of `Sec-WebSocket-Accept` for a key.
fn accept_value(alloc: Global, key: &[u8]) -> Result<Vec<u8>, NoMemory>
    ensures { IfOk result (λ value. value.items ≡ accept_value key.now) }
{
    let mut hasher = Sha1::new();
    hasher.update(key);
    hasher.update(FIXED);
    let text = STANDARD.encode(alloc, &hasher.finalize())?;
    Ok(text.into_bytes())
}

/// Writes a line behind a text, ended by CR LF. Without memory a part of it may stand there.
fn put_line(out: &mut Vec<u8>, text: &[u8]) -> Result<(), NoMemory>
    ensures { OnOk result (out.new.items ≡ out.old.items ++ line text.now) }
{
    out.extend_from_slice(text)?;
    out.extend_from_slice(b"\r\n")?;
    Ok(())
}

fn put_field(out: &mut Vec<u8>, name: &[u8], value: &[u8]) -> Result<(), NoMemory>
    ensures { OnOk result (out.new.items ≡ out.old.items ++ line (name.now ++ value.now)) }
{
    out.extend_from_slice(name)?;
    put_line(out, value)
}

/// Writes the field of the protocol that was asked for, if it was.
fn put_protocol(out: &mut Vec<u8>, meta: bool) -> Result<(), NoMemory>
    ensures { OnOk result (out.new.items ≡ out.old.items ++ protocol_line meta) }
{
    if meta {
        put_line(out, b"Sec-WebSocket-Protocol: ws+meta.nchan")?;
    }
    Ok(())
}

/// The bytes that accept an opening: the status 101, the accept value of its key, and the protocol
/// `ws+meta.nchan` where it was asked for.
pub fn reply(alloc: Global, opening: &Opening) -> Result<Bytes, NoMemory>
    ensures { IfOk result (λ text. text ≡ answer_text opening.now) }
{
    let value = accept_value(alloc, opening.key.as_slice())?;
    let mut out = Vec::new(alloc);
    put_line(&mut out, b"HTTP/1.1 101 Switching Protocols")?;
    put_line(&mut out, b"Upgrade: websocket")?;
    put_line(&mut out, b"Connection: Upgrade")?;
    put_field(&mut out, b"Sec-WebSocket-Accept: ", &value)?;
    put_protocol(&mut out, opening.meta)?;
    put_line(&mut out, b"")?;
    Ok(List::of(out))
}

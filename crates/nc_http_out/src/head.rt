//! The lines of an answer's head, each put behind a text. Without memory a part of a line may stand there.
ghost use Rattle.std.specs.Prelude.{◌≡◌, ◌++◌, codes, length, OnOk, IsTrue};
ghost use Rattle.std.specs.Fmt.{decimal};
ghost use Rattle.std.specs.Option.{option_copied};
ghost use Rattle.nc_http_out.specs.Head.{line_end, is_status, reason, status_line, field_line, methods_line, allow_line, type_line, length_line, close_line};

use nc_types::text::put_decimal;
use nc_types::{Allow, NoMemory};

/// Puts bytes behind a text.
pub fn put(out: &mut Vec<u8>, bytes: &[u8]) -> Result<(), NoMemory>
    ensures { OnOk result (out.new.items ≡ out.old.items ++ bytes.now) }
{
    out.extend_from_slice(bytes)?;
    Ok(())
}

/// What a status means, in words; nothing where no answer has it.
fn reason(status: u16) -> &'static [u8]
    ensures { result.now ≡ reason status }
{
    match status {
        200 => b"OK",
        201 => b"Created",
        202 => b"Accepted",
        400 => b"Bad Request",
        403 => b"Forbidden",
        404 => b"Not Found",
        405 => b"Method Not Allowed",
        408 => b"Request Timeout",
        410 => b"Gone",
        413 => b"Content Too Large",
        503 => b"Service Unavailable",
        507 => b"Insufficient Storage",
        _ => b"",
    }
}

/// Puts the status line.
pub fn put_status(out: &mut Vec<u8>, status: u16) -> Result<(), NoMemory>
    ensures { OnOk result (out.new.items ≡ out.old.items ++ status_line status) }
{
    put(out, b"HTTP/1.1 ")?;
    put_decimal(out, u64::from(status))?;
    put(out, b" ")?;
    put(out, reason(status))?;
    put(out, b"\r\n")
}

/// Puts a field with its value.
pub fn put_field(out: &mut Vec<u8>, name: &[u8], value: &[u8]) -> Result<(), NoMemory>
    ensures { OnOk result (out.new.items ≡ out.old.items ++ field_line name.now value.now) }
{
    put(out, name)?;
    put(out, b": ")?;
    put(out, value)?;
    put(out, b"\r\n")
}

fn put_methods(out: &mut Vec<u8>, allow: Allow) -> Result<(), NoMemory>
    ensures { OnOk result (out.new.items ≡ out.old.items ++ methods_line allow) }
{
    match allow {
        Allow::Nothing => Ok(()),
        Allow::Subscriber => put_field(out, b"Allow", b"GET"),
        Allow::Publisher => put_field(out, b"Allow", b"GET, POST, PUT, DELETE"),
    }
}

/// Puts the methods that may be used, where the status is 405.
pub fn put_allow(out: &mut Vec<u8>, status: u16, allow: Allow) -> Result<(), NoMemory>
    ensures { OnOk result (out.new.items ≡ out.old.items ++ allow_line status allow) }
{
    if status == 405 {
        put_methods(out, allow)
    } else {
        Ok(())
    }
}

/// Puts the content type, where there is one.
pub fn put_type(out: &mut Vec<u8>, content_type: Option<&[u8]>) -> Result<(), NoMemory>
    ensures { OnOk result (out.new.items ≡ out.old.items ++ type_line (option_copied content_type.entry)) }
{
    match content_type {
        Some(content_type) => put_field(out, b"Content-Type", content_type),
        None => Ok(()),
    }
}

/// Puts how many bytes a body has.
pub fn put_length(out: &mut Vec<u8>, body: &[u8]) -> Result<(), NoMemory>
    ensures { OnOk result (out.new.items ≡ out.old.items ++ length_line body.now) }
{
    put(out, b"Content-Length: ")?;
    put_decimal(out, body.len() as u64)?;
    put(out, b"\r\n")
}

/// Puts that the connection closes, where it does.
pub fn put_close(out: &mut Vec<u8>, close: bool) -> Result<(), NoMemory>
    ensures { OnOk result (out.new.items ≡ out.old.items ++ close_line close) }
{
    if close {
        put_field(out, b"Connection", b"close")
    } else {
        Ok(())
    }
}

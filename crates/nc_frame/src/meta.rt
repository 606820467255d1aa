//! The payload of a message with its id and content type.
ghost use Rattle.std.specs.Prelude.{◌≡◌, ◌++◌, Some, IfOk, OnOk};
ghost use Rattle.std.specs.Option.{option_copied};
ghost use Rattle.nc_frame.specs.Meta.{type_line, meta_text};

use nc_types::{Bytes, List, NoMemory};
use std::alloc::Global;

fn put_line(out: &mut Vec<u8>, content_type: &[u8]) -> Result<(), NoMemory>
    ensures { OnOk result (out.new.items ≡ out.old.items ++ type_line (Some content_type.now)) }
{
    out.extend_from_slice(b"content-type: ")?;
    out.extend_from_slice(content_type)?;
    out.extend_from_slice(b"\n")?;
    Ok(())
}

/// Writes the line of a content type behind a text, where there is one. Without memory a part of it may stand there.
fn put_type(out: &mut Vec<u8>, content_type: Option<&[u8]>) -> Result<(), NoMemory>
    ensures { OnOk result (out.new.items ≡ out.old.items ++ type_line (option_copied content_type.entry)) }
{
    match content_type {
        Some(content_type) => put_line(out, content_type),
        None => Ok(()),
    }
}

/// The payload of a message under the protocol `ws+meta.nchan`: a line with its id, a line with its content type where it has
/// one, an empty line, and the body. Lines end at LF, which neither the id nor the content type holds.
pub fn meta_text(
    alloc: Global,
    id: &[u8],
    content_type: Option<&[u8]>,
    body: &[u8],
) -> Result<Bytes, NoMemory>
    ensures { IfOk result (λ text. text ≡ meta_text id.now (option_copied content_type.entry) body.now) }
{
    let mut out = Vec::new(alloc);
    out.extend_from_slice(b"id: ")?;
    out.extend_from_slice(id)?;
    out.extend_from_slice(b"\n")?;
    put_type(&mut out, content_type)?;
    out.extend_from_slice(b"\n")?;
    out.extend_from_slice(body)?;
    Ok(List::of(out))
}

//! Answers of a status, and messages.
ghost use Rattle.std.specs.Prelude.{◌≡◌, ◌≢◌, ◌++◌, [], OnOk, IfOk, IsTrue};
ghost use Rattle.std.specs.Option.{option_copied};
ghost use Rattle.nc_types.specs.declared.request.Allow.TheVariants.{Nothing};
ghost use Rattle.nc_http_out.specs.Head.{is_status};
ghost use Rattle.nc_http_out.specs.Answer.{framed, plain, message};

use crate::head::{put, put_allow, put_close, put_field, put_length, put_status, put_type};
use nc_types::{Allow, Bytes, List, NoMemory};
use std::alloc::Global;

/// The longest head of an answer without its content type, its tags and its reason is shorter than this.
const HEAD: usize = 192;

/// An empty text with room for an answer.
fn room(
    alloc: Global,
    content_type: Option<&[u8]>,
    tags: &[u8],
    body: &[u8],
) -> Result<Vec<u8>, NoMemory>
    ensures { IfOk result (λ room. room.items ≡ []) }
{
    let named = content_type.map_or(0, |name| name.len());
    let texts = named.saturating_add(tags.len()).saturating_add(body.len());
    Ok(Vec::with_capacity(alloc, texts.saturating_add(HEAD))?)
}

/// Puts the fields that every answer may have, the empty line and the body.
fn put_framed(
    out: &mut Vec<u8>,
    content_type: Option<&[u8]>,
    body: &[u8],
    close: bool,
) -> Result<(), NoMemory>
    ensures { OnOk result (out.new.items ≡ out.old.items ++ framed (option_copied content_type.entry) body.now close) }
{
    put_type(out, content_type)?;
    put_length(out, body)?;
    put_close(out, close)?;
    put(out, b"\r\n")?;
    put(out, body)
}

/// An answer of a status: its status line, the allowed methods at 405, its content type if it has one, how long its body is,
/// that the connection closes where it does, and the body.
///
/// The statuses are 200, 201, 202, 400, 403, 404, 405, 408, 410, 413, 503 and 507.
pub fn plain(
    alloc: Global,
    status: u16,
    allow: Allow,
    content_type: Option<&[u8]>,
    body: &[u8],
    close: bool,
) -> Result<Bytes, NoMemory>
    requires status { IsTrue (is_status status) }
    requires methods { status ≡ 405 → allow ≢ Nothing }
    ensures { IfOk result (λ answer. answer ≡ plain status allow (option_copied content_type.entry) body.now close) }
{
    let mut out = room(alloc, content_type, b"", body)?;
    put_status(&mut out, status)?;
    put_allow(&mut out, status, allow)?;
    put_framed(&mut out, content_type, body, close)?;
    Ok(List::of(out))
}

/// A message for a subscriber, of status 200: `date` is the second of its id as a date, and `tags` are the tags of the id
/// as `nc_ident` writes them.
pub fn message(
    alloc: Global,
    date: &[u8; 29],
    tags: &[u8],
    content_type: Option<&[u8]>,
    body: &[u8],
    close: bool,
) -> Result<Bytes, NoMemory>
    ensures { IfOk result (λ answer. answer ≡ message date.now tags.now (option_copied content_type.entry) body.now close) }
{
    let mut out = room(alloc, content_type, tags, body)?;
    put_status(&mut out, 200)?;
    put_field(&mut out, b"Last-Modified", date)?;
    put_field(&mut out, b"Etag", tags)?;
    put_framed(&mut out, content_type, body, close)?;
    Ok(List::of(out))
}

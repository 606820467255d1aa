//! How a head frames the body behind it (RFC 9112, section 6).
ghost use Rattle.std.specs.Prelude.{◌≡◌, codes, ◌||◌, not, is_some, if◌then◌else◌};
ghost use Rattle.std.specs.List.{list_all};
ghost use Rattle.std.specs.Str.Parse.{digits_value};
ghost use Rattle.nc_accept.specs.Fields.{is_called, values, only, first};
ghost use Rattle.nc_http_head.specs.Framing.{is_length, has_length, limited, by_length, is_chunked, by_coding, framing_of};

use nc_accept::fields::{first_value, is_called, is_same_word, only_value};
use nc_types::text::read_decimal;
use nc_types::{Field, Request};

/// What follows a head.
#[derive(Clone, Copy, Debug, PartialEq, Eq)]
pub enum Framing {
    /// A body in chunks, with a trailer.
    Chunked,
    /// A body of so many bytes, at most 65,536.
    Long(usize),
    /// Nothing that can be read: the request is refused with this status.
    Faulty(u16),
}

/// The number that 1 to 18 digits stand for.
fn length_of(text: &[u8]) -> Option<u64>
    ensures { result ≡ (if is_length text.now then Some (digits_value 10 text.now) else None) }
{
    if text.len() > 18 {
        return None;
    }
    read_decimal(text, u64::MAX)
}

fn has_length(length: u64, text: &[u8]) -> bool
    ensures { result ≡ has_length length text.now }
{
    match length_of(text) {
        Some(other) => other == length,
        None => false,
    }
}

/// Whether a field is no `Content-Length`, or one of this value.
fn agrees(length: u64, field: &Field) -> bool
    ensures { result ≡ (not (is_called (codes "Content-Length") field.now) || has_length length field.now.value) }
{
    !is_called(b"Content-Length", field) || has_length(length, field.value.as_slice())
}

/// Whether each `Content-Length` is one of this value.
fn all_agree(length: u64, fields: &[Field]) -> bool
    ensures { result ≡ list_all (has_length length) (values (codes "Content-Length") fields.now) }
{
    fields.iter().all(|field| agrees(length, field))
}

fn limited(length: u64) -> Framing
    ensures { result ≡ limited length }
{
    if length <= 65_536 {
        Framing::Long(length as usize)
    } else {
        Framing::Faulty(413)
    }
}

fn by_length(fields: &[Field]) -> Framing
    ensures { result ≡ by_length (values (codes "Content-Length") fields.now) }
{
    let Some(first) = first_value(b"Content-Length", fields) else {
        return Framing::Long(0);
    };
    let Some(length) = length_of(first) else {
        return Framing::Faulty(400);
    };
    if all_agree(length, fields) {
        limited(length)
    } else {
        Framing::Faulty(400)
    }
}

/// Whether the one coding is `chunked`, in HTTP/1.1.
fn is_chunked(minor: u8, fields: &[Field]) -> bool
    ensures { result ≡ is_chunked minor (only (values (codes "Transfer-Encoding") fields.now)) }
{
    match only_value(b"Transfer-Encoding", fields) {
        Some(coding) => is_same_word(coding, b"chunked") && minor == 1,
        None => false,
    }
}

/// Whether there is a field of this name.
fn has_field(name: &[u8], fields: &[Field]) -> bool
    ensures { result ≡ is_some (first (values name.now fields.now)) }
{
    match first_value(name, fields) {
        Some(_) => true,
        None => false,
    }
}

fn by_coding(minor: u8, fields: &[Field]) -> Framing
    ensures { result ≡ by_coding minor (values (codes "Transfer-Encoding") fields.now) (values (codes "Content-Length") fields.now) }
{
    if is_chunked(minor, fields) && !has_field(b"Content-Length", fields) {
        Framing::Chunked
    } else {
        Framing::Faulty(400)
    }
}

/// How the fields of a request's head frame its body: by chunks, by a length, or by nothing, which is a length of 0.
///
/// It is refused with 400 where its codings or lengths contradict one another or can't be read, and with 413 where the
/// body would pass 65,536 bytes.
pub fn framing_of(request: &Request) -> Framing
    ensures { result ≡ framing_of request.now.minor request.now.fields }
{
    let fields = request.fields.as_slice();
    if has_field(b"Transfer-Encoding", fields) {
        by_coding(request.minor, fields)
    } else {
        by_length(fields)
    }
}

//! The opening of a WebSocket connection, as a request's fields ask for it.
ghost use Rattle.std.specs.Prelude.{◌≡◌, ◌≤◌, length, IfOk, IfErr};
ghost use Rattle.base64.specs.Decode.{decoded_estimate};
ghost use Rattle.nc_accept.specs.Opening.{asks_upgrade, has_version, key_value, is_key, asks_meta, IsOpening, IsRefused};
ghost use Rattle.std.specs.Option.{option_copied};

use crate::fields::{has_item, has_word, only_value};
use base64::engine::general_purpose::STANDARD;
use nc_types::{Bytes, Field, List, NoMemory, Request};
use std::alloc::{AllocError, Global};

/// An opening that is accepted (RFC 6455, section 4.2.2).
#[derive(Drop)]
pub struct Opening {
    /// The value of `Sec-WebSocket-Key`, as it came: base64 of 16 bytes.
    pub key: Bytes,
    /// The protocol `ws+meta.nchan` is asked for, where a message comes with its id and content type.
    pub meta: bool,
}

/// Why an opening is refused: the first of these conditions that is broken.
#[derive(Clone, Copy, Debug, PartialEq, Eq)]
pub enum HandRefusal {
    /// No item of a `Connection` field is `upgrade`.
    Connection,
    /// There isn't exactly one `Sec-WebSocket-Version`, or its value isn't `13`.
    Version,
    /// There isn't exactly one `Sec-WebSocket-Key`, or it isn't base64 of 16 bytes.
    Key,
    /// There was no memory for the key.
    NoMemory,
}

impl From<AllocError> for HandRefusal {
    ghost use Rattle.std.specs.Prelude.{◌≡◌};
    ghost use Rattle.nc_accept.specs.declared.opening.HandRefusal.TheVariants.{NoMemory as Wanting};

    ghost from_gives = { λ _ e. e ≡ Wanting };

    fn from(_: AllocError) -> Self {
        HandRefusal::NoMemory
    }
}

/// Whether there is one `Sec-WebSocket-Version` field, of the value `13`.
fn has_version(fields: &[Field]) -> bool
    ensures { result ≡ has_version fields.now }
{
    match only_value(b"Sec-WebSocket-Version", fields) {
        Some(version) => version == b"13".as_slice(),
        None => false,
    }
}

/// How many bytes base64 of 16 bytes has.
const KEY_LEN: usize = 24;

/// Whether a text is base64 of 16 bytes, which are put at the front of some room.
fn fills(text: &[u8], nonce: &mut [u8]) -> bool
    requires { decoded_estimate (length text.now) ≤ length nonce.old }
    ensures { result ≡ is_key text.now }
{
    match STANDARD.decode_slice_unchecked(text, nonce) {
        Ok(len) => len == 16,
        Err(_) => false,
    }
}

/// Whether a text is base64 of 16 bytes.
fn is_key(text: &[u8]) -> bool
    ensures { result ≡ is_key text.now }
{
    if text.len() > KEY_LEN {
        return false;
    }
    fills(text, &mut [0; 18])
}

/// The opening that a request asks for, or the first condition of RFC 6455, section 4.2.1, that it breaks:
/// the connection, the version, the key. That a WebSocket is asked for at all is the caller's test.
///
/// Memory is taken for an opening alone: a request that breaks a condition is never answered by want of it.
pub fn judge(alloc: Global, request: &Request) -> Result<Opening, HandRefusal>
    ensures opened { IfOk result (λ opening. IsOpening request.now.fields opening) }
    ensures refused { IfErr result (λ refusal. IsRefused request.now.fields refusal) }
{
    let fields = request.fields.as_slice();
    if !has_word(b"Connection", b"upgrade", fields) {
        return Err(HandRefusal::Connection);
    }
    if !has_version(fields) {
        return Err(HandRefusal::Version);
    }
    let Some(key) = only_value(b"Sec-WebSocket-Key", fields) else {
        return Err(HandRefusal::Key);
    };
    if !is_key(key) {
        return Err(HandRefusal::Key);
    }
    Ok(Opening {
        key: List::of(Vec::from_slice(alloc, key)?),
        meta: has_item(b"Sec-WebSocket-Protocol", b"ws+meta.nchan", fields),
    })
}

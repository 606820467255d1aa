//! Writes ids and tags.
ghost use Rattle.std.specs.Prelude.{◌≡◌, ◌<◌, length, IfOk, IfSome};
ghost use Rattle.nc_types.specs.Written.{tags_text, cursor_text};

use nc_types::tags::{put_cursor, put_tags};
use nc_types::{Bytes, Cursor, List, NoMemory};
use std::alloc::Global;

/// The sending place, counted as the texts count it.
fn counted(sent: Option<usize>) -> Option<u64>
    ensures { result ≡ sent }
{
    match sent {
        Some(i) => Some(i as u64),
        None => None,
    }
}

/// The tags of a cursor joined by commas, with `-` for -1.
///
/// `sent` is the place of the message that moved the cursor, counted from 0. Where there is more than one tag,
/// that place's tag stands in brackets.
pub fn spell_tags(alloc: Global, cursor: &Cursor, sent: Option<usize>) -> Result<Bytes, NoMemory>
    requires { IfSome sent (λ i. i < length cursor.now.tags) }
    ensures { IfOk result (λ text. text ≡ tags_text sent cursor.now.tags) }
{
    let mut out = Vec::new(alloc);
    put_tags(&mut out, cursor.tags.as_slice(), counted(sent))?;
    Ok(List::of(out))
}

/// A cursor's time, a colon, and its tags as [`spell_tags`] writes them.
pub fn spell_id(alloc: Global, cursor: &Cursor, sent: Option<usize>) -> Result<Bytes, NoMemory>
    requires { IfSome sent (λ i. i < length cursor.now.tags) }
    ensures { IfOk result (λ text. text ≡ cursor_text sent cursor.now) }
{
    let mut out = Vec::new(alloc);
    put_cursor(&mut out, cursor, counted(sent))?;
    Ok(List::of(out))
}

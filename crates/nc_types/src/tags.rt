//! Tags, ids and cursors as texts: a time, a colon, and a tag for each channel of a list.
//!
//! The lines of the journal and the ids that subscribers are given have one form, which is written here.
ghost use Rattle.std.specs.Prelude.{◌≡◌, ◌++◌, ◌+◌, length, OnOk, OnErr};
ghost use Rattle.std.specs.List.{flat_map};
ghost use Rattle.nc_types.specs.Text.{IsBehind};
ghost use Rattle.nc_types.specs.Written.{tag_text, id_text, comma, joined, bracketed, tags_from, sent_tags, tags_text, cursor_text};

use crate::cursor::Cursor;
use crate::id::MsgId;
use crate::list::NoMemory;
use crate::text::{put_decimal, undone};

fn put(out: &mut Vec<u8>, text: &[u8]) -> Result<(), NoMemory>
    ensures ok { OnOk result (out.new.items ≡ out.old.items ++ text.now) }
    ensures err { OnErr result (out.new.items ≡ out.old.items) }
{
    out.extend_from_slice(text)?;
    Ok(())
}

fn put_tag(out: &mut Vec<u8>, tag: i32) -> Result<(), NoMemory>
    ensures ok { OnOk result (out.new.items ≡ out.old.items ++ tag_text tag) }
    ensures err { OnErr result (out.new.items ≡ out.old.items) }
{
    if tag < 0 {
        return put(out, b"-");
    }
    put_decimal(out, tag as u64)
}

fn put_more_tags(out: &mut Vec<u8>, tags: &[i32]) -> Result<(), NoMemory>
    ensures ok { OnOk result (out.new.items ≡ out.old.items ++ flat_map (comma tag_text) tags.now) }
    ensures err { OnErr result (IsBehind out.old.items out.new.items) }
{
    for tag in tags {
        put(out, b",")?;
        put_tag(out, *tag)?;
    }
    Ok(())
}

fn put_plain_tags(out: &mut Vec<u8>, tags: &[i32]) -> Result<(), NoMemory>
    ensures ok { OnOk result (out.new.items ≡ out.old.items ++ joined tag_text tags.now) }
    ensures err { OnErr result (IsBehind out.old.items out.new.items) }
{
    if let [first, rest @ ..] = tags {
        put_tag(out, *first)?;
        put_more_tags(out, rest)?;
    }
    Ok(())
}

/// Writes the tag of place `j`, in brackets where that is the sending place `i`.
fn put_bracketed(out: &mut Vec<u8>, i: u64, j: u64, tag: i32) -> Result<(), NoMemory>
    ensures ok { OnOk result (out.new.items ≡ out.old.items ++ bracketed i j tag) }
    ensures err { OnErr result (IsBehind out.old.items out.new.items) }
{
    if i != j {
        return put_tag(out, tag);
    }
    put(out, b"[")?;
    put_tag(out, tag)?;
    put(out, b"]")
}

fn put_tags_from(out: &mut Vec<u8>, i: u64, tags: &[i32]) -> Result<(), NoMemory>
    ensures ok { OnOk result (out.new.items ≡ out.old.items ++ tags_from i 1 tags.now) }
    ensures err { OnErr result (IsBehind out.old.items out.new.items) }
{
    for (j, tag) in tags.iter().enumerate() {
        put(out, b",")?;
        put_bracketed(out, i, j as u64 + 1, *tag)?;
    }
    Ok(())
}

fn put_sent_tags(out: &mut Vec<u8>, i: u64, tags: &[i32]) -> Result<(), NoMemory>
    ensures ok { OnOk result (out.new.items ≡ out.old.items ++ sent_tags i tags.now) }
    ensures err { OnErr result (IsBehind out.old.items out.new.items) }
{
    match tags {
        [] => Ok(()),
        [only] => put_tag(out, *only),
        [first, rest @ ..] => {
            put_bracketed(out, i, 0, *first)?;
            put_tags_from(out, i, rest)
        }
    }
}

fn put_all_tags(out: &mut Vec<u8>, tags: &[i32], sent: Option<u64>) -> Result<(), NoMemory>
    ensures ok { OnOk result (out.new.items ≡ out.old.items ++ tags_text sent tags.now) }
    ensures err { OnErr result (IsBehind out.old.items out.new.items) }
{
    match sent {
        Some(i) => put_sent_tags(out, i, tags),
        None => put_plain_tags(out, tags),
    }
}

fn put_whole_cursor(out: &mut Vec<u8>, cursor: &Cursor, sent: Option<u64>) -> Result<(), NoMemory>
    ensures ok { OnOk result (out.new.items ≡ out.old.items ++ cursor_text sent cursor.now) }
    ensures err { OnErr result (IsBehind out.old.items out.new.items) }
{
    put_decimal(out, cursor.time)?;
    put(out, b":")?;
    put_all_tags(out, cursor.tags.as_slice(), sent)
}

fn put_whole_id(out: &mut Vec<u8>, id: &MsgId) -> Result<(), NoMemory>
    ensures ok { OnOk result (out.new.items ≡ out.old.items ++ id_text id.now) }
    ensures err { OnErr result (IsBehind out.old.items out.new.items) }
{
    put_decimal(out, id.time)?;
    put(out, b":")?;
    put_tag(out, id.tag)
}

/// Writes an id behind a text: its time, a colon, and its tag, with `-` for -1. Without memory the text stays as it was.
pub fn put_id(out: &mut Vec<u8>, id: &MsgId) -> Result<(), NoMemory>
    ensures ok { OnOk result (out.new.items ≡ out.old.items ++ id_text id.now) }
    ensures err { OnErr result (out.new.items ≡ out.old.items) }
{
    let before = out.len();
    let put = put_whole_id(out, id);
    undone(out, before, put)
}

/// Writes tags behind a text, joined by commas, with `-` for -1. Without memory the text stays as it was.
///
/// `sent` is the place of the message that moved the tags' cursor, counted from 0. Where there is more than one tag,
/// that place's tag stands in brackets.
pub fn put_tags(out: &mut Vec<u8>, tags: &[i32], sent: Option<u64>) -> Result<(), NoMemory>
    ensures ok { OnOk result (out.new.items ≡ out.old.items ++ tags_text sent tags.now) }
    ensures err { OnErr result (out.new.items ≡ out.old.items) }
{
    let before = out.len();
    let put = put_all_tags(out, tags, sent);
    undone(out, before, put)
}

/// Writes a cursor behind a text: its time, a colon, and its tags as [`put_tags`] does. Without memory the text stays as it was.
pub fn put_cursor(out: &mut Vec<u8>, cursor: &Cursor, sent: Option<u64>) -> Result<(), NoMemory>
    ensures ok { OnOk result (out.new.items ≡ out.old.items ++ cursor_text sent cursor.now) }
    ensures err { OnErr result (out.new.items ≡ out.old.items) }
{
    let before = out.len();
    let put = put_whole_cursor(out, cursor, sent);
    undone(out, before, put)
}

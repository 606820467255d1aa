//! The values of a line, each behind its label.
//!
//! Each function puts a label and a value behind a text; a label has the blank before it and its `=`.
//! Without memory a part of them may stand there: a line is made apart, and put whole.
ghost use Rattle.std.specs.Prelude.{◌≡◌, ◌++◌, [], IfOk, OnOk, OnErr, codes};
ghost use Rattle.std.specs.Fmt.{decimal};
ghost use Rattle.nc_types.specs.Text.{quoted};
ghost use Rattle.nc_types.specs.Written.{id_text, cursor_text};
ghost use Rattle.nc_journal_field.specs.Field.{
  truth_text,
  optional,
  list_text,
  numbers_text,
  subs_text,
  start_text,
  info_text,
  full_text,
};

use nc_types::text::{put_decimal, put_quoted};
use nc_types::{
    Bytes, ChanList, ChanName, Cursor, FullLine, Info, List, MsgId, NoMemory, Start, tags,
};
use std::alloc::Global;

/// How many bytes most lines fit in.
const LINE_ROOM: usize = 128;

/// An empty text with room for a line.
pub fn room(alloc: Global) -> Result<Vec<u8>, NoMemory>
    ensures { IfOk result (λ text. text.items ≡ []) }
{
    let text = Vec::with_capacity(alloc, LINE_ROOM)?;
    Ok(text)
}

/// Puts a text behind another, or nothing.
pub fn put(out: &mut Vec<u8>, text: &[u8]) -> Result<(), NoMemory>
    ensures put { OnOk result (out.new.items ≡ out.old.items ++ text.now) }
    ensures unchanged { OnErr result (out.new.items ≡ out.old.items) }
{
    out.extend_from_slice(text)?;
    Ok(())
}

/// Puts a word.
pub fn put_word(out: &mut Vec<u8>, label: &[u8], word: &[u8]) -> Result<(), NoMemory>
    ensures { OnOk result (out.new.items ≡ out.old.items ++ label.now ++ word.now) }
{
    put(out, label)?;
    put(out, word)
}

fn put_absent(out: &mut Vec<u8>, label: &[u8]) -> Result<(), NoMemory>
    ensures { OnOk result (out.new.items ≡ out.old.items ++ label.now ++ codes "-") }
{
    put_word(out, label, b"-")
}

/// Puts a number in decimal.
pub fn put_number(out: &mut Vec<u8>, label: &[u8], n: u64) -> Result<(), NoMemory>
    ensures { OnOk result (out.new.items ≡ out.old.items ++ label.now ++ decimal n) }
{
    put(out, label)?;
    put_decimal(out, n)
}

/// Puts a number, or `-` for none.
pub fn put_optional_number(out: &mut Vec<u8>, label: &[u8], n: &Option<u64>) -> Result<(), NoMemory>
    ensures { OnOk result (out.new.items ≡ out.old.items ++ label.now ++ optional decimal n.now) }
{
    match n {
        Some(n) => put_number(out, label, *n),
        None => put_absent(out, label),
    }
}

/// Puts 1 for true and 0 for false.
pub fn put_truth(out: &mut Vec<u8>, label: &[u8], truth: bool) -> Result<(), NoMemory>
    ensures { OnOk result (out.new.items ≡ out.old.items ++ label.now ++ truth_text truth) }
{
    put_word(out, label, if truth { b"1" } else { b"0" })
}

/// Puts bytes between quotation marks.
pub fn put_bytes(out: &mut Vec<u8>, label: &[u8], bytes: &Bytes) -> Result<(), NoMemory>
    ensures { OnOk result (out.new.items ≡ out.old.items ++ label.now ++ quoted bytes.now) }
{
    put(out, label)?;
    put_quoted(out, bytes.as_slice())
}

/// Puts bytes between quotation marks, or `-` for none.
pub fn put_optional_bytes(
    out: &mut Vec<u8>,
    label: &[u8],
    bytes: &Option<Bytes>,
) -> Result<(), NoMemory>
    ensures { OnOk result (out.new.items ≡ out.old.items ++ label.now ++ optional quoted bytes.now) }
{
    match bytes {
        Some(bytes) => put_bytes(out, label, bytes),
        None => put_absent(out, label),
    }
}

/// Puts a name between quotation marks.
pub fn put_name(out: &mut Vec<u8>, label: &[u8], name: &ChanName) -> Result<(), NoMemory>
    ensures { OnOk result (out.new.items ≡ out.old.items ++ label.now ++ quoted name.now) }
{
    put_bytes(out, label, &name.bytes)
}

fn put_names(out: &mut Vec<u8>, names: &[ChanName]) -> Result<(), NoMemory>
    ensures { OnOk result (out.new.items ≡ out.old.items ++ list_text names.now) }
{
    if let [first, rest @ ..] = names {
        put_name(out, b"", first)?;
        for name in rest {
            put_name(out, b",", name)?;
        }
    }
    Ok(())
}

/// Puts names between quotation marks, joined by commas.
pub fn put_list(out: &mut Vec<u8>, label: &[u8], list: &ChanList) -> Result<(), NoMemory>
    ensures { OnOk result (out.new.items ≡ out.old.items ++ label.now ++ list_text list.now) }
{
    put(out, label)?;
    put_names(out, list.names.as_slice())
}

/// Puts a list, or `-` for none.
pub fn put_optional_list(
    out: &mut Vec<u8>,
    label: &[u8],
    list: &Option<ChanList>,
) -> Result<(), NoMemory>
    ensures { OnOk result (out.new.items ≡ out.old.items ++ label.now ++ optional list_text list.now) }
{
    match list {
        Some(list) => put_list(out, label, list),
        None => put_absent(out, label),
    }
}

/// Puts numbers joined by commas.
pub fn put_numbers(out: &mut Vec<u8>, label: &[u8], numbers: &[u64]) -> Result<(), NoMemory>
    ensures { OnOk result (out.new.items ≡ out.old.items ++ label.now ++ numbers_text numbers.now) }
{
    put(out, label)?;
    if let [first, rest @ ..] = numbers {
        put_number(out, b"", *first)?;
        for n in rest {
            put_number(out, b",", *n)?;
        }
    }
    Ok(())
}

/// Puts numbers joined by commas, or `-` where there is none.
pub fn put_subs(out: &mut Vec<u8>, label: &[u8], subs: &List<u64>) -> Result<(), NoMemory>
    ensures { OnOk result (out.new.items ≡ out.old.items ++ label.now ++ subs_text subs.now) }
{
    if subs.len() == 0 {
        return put_absent(out, label);
    }
    put_numbers(out, label, subs.as_slice())
}

/// Puts an id.
pub fn put_id(out: &mut Vec<u8>, label: &[u8], id: &MsgId) -> Result<(), NoMemory>
    ensures { OnOk result (out.new.items ≡ out.old.items ++ label.now ++ id_text id.now) }
{
    put(out, label)?;
    tags::put_id(out, id)
}

/// Puts an id, or `-` for none.
pub fn put_optional_id(out: &mut Vec<u8>, label: &[u8], id: &Option<MsgId>) -> Result<(), NoMemory>
    ensures { OnOk result (out.new.items ≡ out.old.items ++ label.now ++ optional id_text id.now) }
{
    match id {
        Some(id) => put_id(out, label, id),
        None => put_absent(out, label),
    }
}

/// Puts a cursor; `sent` is the place of the message that moved it, if any.
pub fn put_cursor(
    out: &mut Vec<u8>,
    label: &[u8],
    cursor: &Cursor,
    sent: Option<u64>,
) -> Result<(), NoMemory>
    ensures { OnOk result (out.new.items ≡ out.old.items ++ label.now ++ cursor_text sent cursor.now) }
{
    put(out, label)?;
    tags::put_cursor(out, cursor, sent)
}

/// Puts where a subscriber begins.
pub fn put_start(out: &mut Vec<u8>, label: &[u8], start: &Start) -> Result<(), NoMemory>
    ensures { OnOk result (out.new.items ≡ out.old.items ++ label.now ++ start_text start.now) }
{
    match start {
        Start::Oldest => put_word(out, label, b"oldest"),
        Start::Newest => put_word(out, label, b"newest"),
        Start::Given(cursor) => put_cursor(out, label, cursor, None),
    }
}

fn put_info(out: &mut Vec<u8>, label: &[u8], info: &Info) -> Result<(), NoMemory>
    ensures { OnOk result (out.new.items ≡ out.old.items ++ label.now ++ info_text info.now) }
{
    put_number(out, label, u64::from(info.messages))?;
    put_number(out, b"/", info.members)?;
    put_optional_id(out, b"/", &info.last)
}

/// Puts what is told of a channel, or `-` for none.
pub fn put_optional_info(
    out: &mut Vec<u8>,
    label: &[u8],
    info: &Option<Info>,
) -> Result<(), NoMemory>
    ensures { OnOk result (out.new.items ≡ out.old.items ++ label.now ++ optional info_text info.now) }
{
    match info {
        Some(info) => put_info(out, label, info),
        None => put_absent(out, label),
    }
}

fn put_full(out: &mut Vec<u8>, label: &[u8], full: &FullLine) -> Result<(), NoMemory>
    ensures { OnOk result (out.new.items ≡ out.old.items ++ label.now ++ full_text full.now) }
{
    put_number(out, label, full.buffered)?;
    put_number(out, b",", full.held)
}

/// Puts how many slots are buffered and how many more held, or `-` for none.
pub fn put_optional_full(
    out: &mut Vec<u8>,
    label: &[u8],
    full: &Option<FullLine>,
) -> Result<(), NoMemory>
    ensures { OnOk result (out.new.items ≡ out.old.items ++ label.now ++ optional full_text full.now) }
{
    match full {
        Some(full) => put_full(out, label, full),
        None => put_absent(out, label),
    }
}

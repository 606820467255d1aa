//! What is told of a channel to those who ask for it: its messages, its members and its last id.
//!
//! The answers of HTTP carry these texts. Below are the information and the ids of `nc_types`.
//! `specs/Information.antt` says each byte.
#![tactic(auto)]

ghost use Rattle.std.specs.Prelude.{◌≡◌, ◌++◌, IfOk, OnOk};
ghost use Rattle.std.specs.Fmt.{decimal};
ghost use Rattle.nc_info.specs.Information.{line_feed, plain_id, plain_text, json_id, json_text};

use nc_types::tags::put_id;
use nc_types::text::put_decimal;
use nc_types::{Bytes, Info, List, MsgId, NoMemory};
use std::alloc::Global;

/// Puts a text behind another.
fn put(out: &mut Vec<u8>, text: &[u8]) -> Result<(), NoMemory>
    ensures { OnOk result (out.new.items ≡ out.old.items ++ text.now) }
{
    out.extend_from_slice(text)?;
    Ok(())
}

/// Puts a label behind a text, and a number behind it.
fn put_number(out: &mut Vec<u8>, label: &[u8], number: u64) -> Result<(), NoMemory>
    ensures { OnOk result (out.new.items ≡ out.old.items ++ label.now ++ decimal number) }
{
    put(out, label)?;
    put_decimal(out, number)
}

/// Puts a label behind a text, a number and an LF.
fn put_line(out: &mut Vec<u8>, label: &[u8], number: u64) -> Result<(), NoMemory>
    ensures { OnOk result (out.new.items ≡ out.old.items ++ label.now ++ decimal number ++ line_feed) }
{
    put_number(out, label, number)?;
    put(out, b"\n")
}

/// Puts an id behind a text, or `-`.
fn put_plain_id(out: &mut Vec<u8>, id: Option<MsgId>) -> Result<(), NoMemory>
    ensures { OnOk result (out.new.items ≡ out.old.items ++ plain_id id) }
{
    match id {
        Some(id) => put_id(out, &id),
        None => put(out, b"-"),
    }
}

/// Puts an id between quotation marks behind a text, or `null`.
fn put_json_id(out: &mut Vec<u8>, id: Option<MsgId>) -> Result<(), NoMemory>
    ensures { OnOk result (out.new.items ≡ out.old.items ++ json_id id) }
{
    let Some(id) = id else {
        return put(out, b"null");
    };
    put(out, b"\"")?;
    put_id(out, &id)?;
    put(out, b"\"")
}

/// The information about a channel as three lines, each with its LF; `-` stands for an id that there isn't.
pub fn plain_text(alloc: Global, info: &Info) -> Result<Bytes, NoMemory>
    ensures { IfOk result (λ text. text ≡ plain_text info.now) }
{
    let mut out = Vec::new(alloc);
    put_line(&mut out, b"queued messages: ", u64::from(info.messages))?;
    put_line(&mut out, b"active subscribers: ", info.members)?;
    put(&mut out, b"last message id: ")?;
    put_plain_id(&mut out, info.last)?;
    put(&mut out, b"\n")?;
    Ok(List::of(out))
}

/// The information about a channel as a JSON object (RFC 8259) without a line end; `null` stands for an id that there isn't.
pub fn json_text(alloc: Global, info: &Info) -> Result<Bytes, NoMemory>
    ensures { IfOk result (λ text. text ≡ json_text info.now) }
{
    let mut out = Vec::new(alloc);
    put_number(&mut out, b"{\"messages\": ", u64::from(info.messages))?;
    put_number(&mut out, b", \"subscribers\": ", info.members)?;
    put(&mut out, b", \"last_message_id\": ")?;
    put_json_id(&mut out, info.last)?;
    put(&mut out, b"}")?;
    Ok(List::of(out))
}

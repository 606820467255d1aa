//! The event of a stored message from its line: where the message lies and until when, and then what it is.
ghost use Rattle.std.specs.Prelude.{◌≡◌};
ghost use Rattle.nc_grammar.specs.Gives.{Gives};
ghost use Rattle.nc_grammar.specs.Rows.{row_at};
ghost use Rattle.nc_journal_read.specs.EventTable.{parts, front_at, content_at, stored_of, stored_row};

use crate::field_reading::{id, name, number, optional_text, text, truth};
use nc_grammar::{Fault, Reader};
use nc_journal::Event;
use nc_types::{Bytes, ChanName, MsgId};
use std::alloc::Global;

/// Where a stored message lies, and until when.
#[derive(Drop)]
struct StoredFront {
    w: u64,
    c: ChanName,
    id: MsgId,
    slot: u64,
    len: u64,
    exp: u64,
}

/// What a stored message is.
#[derive(Drop)]
struct StoredContent {
    kept: bool,
    members: u64,
    from: u64,
    r: u64,
    ct: Option<Bytes>,
    body: Bytes,
}

fn front(alloc: Global, reader: &mut Reader<'_>) -> Result<StoredFront, Fault>
    ensures { Gives reader.new result (front_at reader.old) }
{
    let w = number(reader, b" w=")?;
    let c = name(alloc, reader, b" c=")?;
    let id = id(reader, b" id=")?;
    let slot = number(reader, b" slot=")?;
    let len = number(reader, b" len=")?;
    let exp = number(reader, b" exp=")?;
    Ok(StoredFront {
        w,
        c,
        id,
        slot,
        len,
        exp,
    })
}

fn content(alloc: Global, reader: &mut Reader<'_>) -> Result<StoredContent, Fault>
    ensures { Gives reader.new result (content_at reader.old) }
{
    let kept = truth(reader, b" kept=")?;
    let members = number(reader, b" members=")?;
    let from = number(reader, b" from=")?;
    let r = number(reader, b" r=")?;
    let ct = optional_text(alloc, reader, b" ct=")?;
    let body = text(alloc, reader, b" body=")?;
    Ok(StoredContent {
        kept,
        members,
        from,
        r,
        ct,
        body,
    })
}

/// The event of both.
fn event_of_parts(front: StoredFront, content: StoredContent) -> Event
    ensures { result ≡ stored_of front content }
{
    Event::Stored {
        w: front.w,
        c: front.c,
        id: front.id,
        slot: front.slot,
        len: front.len,
        exp: front.exp,
        kept: content.kept,
        members: content.members,
        from: content.from,
        r: content.r,
        ct: content.ct,
        body: content.body,
    }
}

pub(crate) fn stored(alloc: Global, reader: &mut Reader<'_>) -> Result<Event, Fault>
    ensures { Gives reader.new result (row_at parts stored_row reader.old) }
{
    let front = front(alloc, reader)?;
    let content = content(alloc, reader)?;
    Ok(event_of_parts(front, content))
}

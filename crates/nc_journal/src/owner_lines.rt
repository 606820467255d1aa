//! The lines of what a worker does to the channels and slots that it owns.
ghost use Rattle.std.specs.Prelude.{◌≡◌, IfOk};
ghost use Rattle.nc_journal.specs.EventLine.{line, stored_front};

use crate::event::Event;
use crate::word::{LeftCause, RemovedCause};
use crate::words::{left_word, removed_word};
use nc_journal_field::{
    put_bytes, put_id, put_name, put_number, put_optional_bytes, put_optional_id, put_truth,
    put_word, room,
};
use nc_types::{Bytes, ChanName, MsgId, NoMemory};
use std::alloc::Global;

pub(crate) fn joined_line(
    alloc: Global,
    w: u64,
    c: &ChanName,
    from: u64,
    k: u64,
) -> Result<Vec<u8>, NoMemory>
    ensures { IfOk result (λ text. text.items ≡ line (Event.Joined w c.now from k)) }
{
    let mut out = room(alloc)?;
    put_number(&mut out, b"joined w=", w)?;
    put_name(&mut out, b" c=", c)?;
    put_number(&mut out, b" from=", from)?;
    put_number(&mut out, b" k=", k)?;
    Ok(out)
}

pub(crate) fn parted_line(
    alloc: Global,
    w: u64,
    c: &ChanName,
    from: u64,
    k: u64,
) -> Result<Vec<u8>, NoMemory>
    ensures { IfOk result (λ text. text.items ≡ line (Event.Parted w c.now from k)) }
{
    let mut out = room(alloc)?;
    put_number(&mut out, b"parted w=", w)?;
    put_name(&mut out, b" c=", c)?;
    put_number(&mut out, b" from=", from)?;
    put_number(&mut out, b" k=", k)?;
    Ok(out)
}

pub(crate) fn raised_line(alloc: Global, w: u64, t: u64) -> Result<Vec<u8>, NoMemory>
    ensures { IfOk result (λ text. text.items ≡ line (Event.Raised w t)) }
{
    let mut out = room(alloc)?;
    put_number(&mut out, b"raised w=", w)?;
    put_number(&mut out, b" t=", t)?;
    Ok(out)
}

/// Where a message lies and until when.
fn stored_front(
    alloc: Global,
    w: u64,
    c: &ChanName,
    id: &MsgId,
    slot: u64,
    len: u64,
    exp: u64,
) -> Result<Vec<u8>, NoMemory>
    ensures { IfOk result (λ text. text.items ≡ stored_front w c.now id.now slot len exp) }
{
    let mut out = room(alloc)?;
    put_number(&mut out, b"stored w=", w)?;
    put_name(&mut out, b" c=", c)?;
    put_id(&mut out, b" id=", id)?;
    put_number(&mut out, b" slot=", slot)?;
    put_number(&mut out, b" len=", len)?;
    put_number(&mut out, b" exp=", exp)?;
    Ok(out)
}

pub(crate) fn stored_line(
    alloc: Global,
    w: u64,
    c: &ChanName,
    id: &MsgId,
    slot: u64,
    len: u64,
    exp: u64,
    kept: bool,
    members: u64,
    from: u64,
    r: u64,
    ct: &Option<Bytes>,
    body: &Bytes,
) -> Result<Vec<u8>, NoMemory>
    ensures { IfOk result (λ text. text.items ≡ line (Event.Stored w c.now id.now slot len exp kept members from r ct.now body.now)) }
{
    let mut out = stored_front(alloc, w, c, id, slot, len, exp)?;
    put_truth(&mut out, b" kept=", kept)?;
    put_number(&mut out, b" members=", members)?;
    put_number(&mut out, b" from=", from)?;
    put_number(&mut out, b" r=", r)?;
    put_optional_bytes(&mut out, b" ct=", ct)?;
    put_bytes(&mut out, b" body=", body)?;
    Ok(out)
}

pub(crate) fn left_line(
    alloc: Global,
    w: u64,
    c: &ChanName,
    id: &MsgId,
    slot: u64,
    cause: LeftCause,
) -> Result<Vec<u8>, NoMemory>
    ensures { IfOk result (λ text. text.items ≡ line (Event.Left w c.now id.now slot cause)) }
{
    let mut out = room(alloc)?;
    put_number(&mut out, b"left w=", w)?;
    put_name(&mut out, b" c=", c)?;
    put_id(&mut out, b" id=", id)?;
    put_number(&mut out, b" slot=", slot)?;
    put_word(&mut out, b" cause=", left_word(cause))?;
    Ok(out)
}

pub(crate) fn looked_line(
    alloc: Global,
    w: u64,
    q: u64,
    from: u64,
    no: u64,
    c: &ChanName,
    after: &MsgId,
    floor: u64,
    found: &Option<MsgId>,
) -> Result<Vec<u8>, NoMemory>
    ensures { IfOk result (λ text. text.items ≡ line (Event.Looked w q from no c.now after.now floor found.now)) }
{
    let mut out = room(alloc)?;
    put_number(&mut out, b"looked w=", w)?;
    put_number(&mut out, b" q=", q)?;
    put_number(&mut out, b" from=", from)?;
    put_number(&mut out, b" no=", no)?;
    put_name(&mut out, b" c=", c)?;
    put_id(&mut out, b" after=", after)?;
    put_number(&mut out, b" floor=", floor)?;
    put_optional_id(&mut out, b" found=", found)?;
    Ok(out)
}

pub(crate) fn edged_line(
    alloc: Global,
    w: u64,
    q: u64,
    from: u64,
    no: u64,
    k: u64,
    c: &ChanName,
    floor: u64,
    last: &MsgId,
) -> Result<Vec<u8>, NoMemory>
    ensures { IfOk result (λ text. text.items ≡ line (Event.Edged w q from no k c.now floor last.now)) }
{
    let mut out = room(alloc)?;
    put_number(&mut out, b"edged w=", w)?;
    put_number(&mut out, b" q=", q)?;
    put_number(&mut out, b" from=", from)?;
    put_number(&mut out, b" no=", no)?;
    put_number(&mut out, b" k=", k)?;
    put_name(&mut out, b" c=", c)?;
    put_number(&mut out, b" floor=", floor)?;
    put_id(&mut out, b" last=", last)?;
    Ok(out)
}

pub(crate) fn granted_line(
    alloc: Global,
    w: u64,
    g: u64,
    slot: u64,
    to: u64,
) -> Result<Vec<u8>, NoMemory>
    ensures { IfOk result (λ text. text.items ≡ line (Event.Granted w g slot to)) }
{
    let mut out = room(alloc)?;
    put_number(&mut out, b"granted w=", w)?;
    put_number(&mut out, b" g=", g)?;
    put_number(&mut out, b" slot=", slot)?;
    put_number(&mut out, b" to=", to)?;
    Ok(out)
}

pub(crate) fn freed_line(alloc: Global, w: u64, slot: u64) -> Result<Vec<u8>, NoMemory>
    ensures { IfOk result (λ text. text.items ≡ line (Event.Freed w slot)) }
{
    let mut out = room(alloc)?;
    put_number(&mut out, b"freed w=", w)?;
    put_number(&mut out, b" slot=", slot)?;
    Ok(out)
}

pub(crate) fn removed_line(
    alloc: Global,
    w: u64,
    c: &ChanName,
    last: &MsgId,
    cause: RemovedCause,
) -> Result<Vec<u8>, NoMemory>
    ensures { IfOk result (λ text. text.items ≡ line (Event.Removed w c.now last.now cause)) }
{
    let mut out = room(alloc)?;
    put_number(&mut out, b"removed w=", w)?;
    put_name(&mut out, b" c=", c)?;
    put_id(&mut out, b" last=", last)?;
    put_word(&mut out, b" cause=", removed_word(cause))?;
    Ok(out)
}

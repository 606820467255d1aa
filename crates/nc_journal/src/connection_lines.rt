//! The lines of what happens to a connection and its requests.
ghost use Rattle.std.specs.Prelude.{◌≡◌, IfOk};
ghost use Rattle.nc_journal.specs.EventLine.{line};

use crate::event::Event;
use crate::word::{Act, ShutCause};
use crate::words::{act_word, shut_word};
use nc_journal_field::{
    put_bytes, put_number, put_optional_info, put_optional_list, put_optional_number, put_truth,
    put_word, room,
};
use nc_types::{Bytes, ChanList, Info, NoMemory};
use std::alloc::Global;

pub(crate) fn opened_line(alloc: Global, w: u64, conn: u64) -> Result<Vec<u8>, NoMemory>
    ensures { IfOk result (λ text. text.items ≡ line (Event.Opened w conn)) }
{
    let mut out = room(alloc)?;
    put_number(&mut out, b"opened w=", w)?;
    put_number(&mut out, b" conn=", conn)?;
    Ok(out)
}

pub(crate) fn got_line(alloc: Global, w: u64, conn: u64, bytes: &Bytes) -> Result<Vec<u8>, NoMemory>
    ensures { IfOk result (λ text. text.items ≡ line (Event.Got w conn bytes.now)) }
{
    let mut out = room(alloc)?;
    put_number(&mut out, b"got w=", w)?;
    put_number(&mut out, b" conn=", conn)?;
    put_bytes(&mut out, b" bytes=", bytes)?;
    Ok(out)
}

pub(crate) fn asked_line(
    alloc: Global,
    w: u64,
    r: u64,
    conn: &Option<u64>,
    act: Act,
    list: &Option<ChanList>,
    status: u64,
    rule: u64,
) -> Result<Vec<u8>, NoMemory>
    ensures { IfOk result (λ text. text.items ≡ line (Event.Asked w r conn.now act list.now status rule)) }
{
    let mut out = room(alloc)?;
    put_number(&mut out, b"asked w=", w)?;
    put_number(&mut out, b" r=", r)?;
    put_optional_number(&mut out, b" conn=", conn)?;
    put_word(&mut out, b" act=", act_word(act))?;
    put_optional_list(&mut out, b" list=", list)?;
    put_number(&mut out, b" status=", status)?;
    put_number(&mut out, b" rule=", rule)?;
    Ok(out)
}

pub(crate) fn answered_line(
    alloc: Global,
    w: u64,
    r: u64,
    conn: &Option<u64>,
    status: u64,
    info: &Option<Info>,
    json: bool,
    close: bool,
) -> Result<Vec<u8>, NoMemory>
    ensures { IfOk result (λ text. text.items ≡ line (Event.Answered w r conn.now status info.now json close)) }
{
    let mut out = room(alloc)?;
    put_number(&mut out, b"answered w=", w)?;
    put_number(&mut out, b" r=", r)?;
    put_optional_number(&mut out, b" conn=", conn)?;
    put_number(&mut out, b" status=", status)?;
    put_optional_info(&mut out, b" info=", info)?;
    put_truth(&mut out, b" json=", json)?;
    put_truth(&mut out, b" close=", close)?;
    Ok(out)
}

pub(crate) fn replied_line(
    alloc: Global,
    w: u64,
    conn: u64,
    bytes: &Bytes,
) -> Result<Vec<u8>, NoMemory>
    ensures { IfOk result (λ text. text.items ≡ line (Event.Replied w conn bytes.now)) }
{
    let mut out = room(alloc)?;
    put_number(&mut out, b"replied w=", w)?;
    put_number(&mut out, b" conn=", conn)?;
    put_bytes(&mut out, b" bytes=", bytes)?;
    Ok(out)
}

pub(crate) fn wrote_line(
    alloc: Global,
    w: u64,
    conn: u64,
    bytes: &Bytes,
) -> Result<Vec<u8>, NoMemory>
    ensures { IfOk result (λ text. text.items ≡ line (Event.Wrote w conn bytes.now)) }
{
    let mut out = room(alloc)?;
    put_number(&mut out, b"wrote w=", w)?;
    put_number(&mut out, b" conn=", conn)?;
    put_bytes(&mut out, b" bytes=", bytes)?;
    Ok(out)
}

pub(crate) fn shut_line(
    alloc: Global,
    w: u64,
    conn: u64,
    cause: ShutCause,
) -> Result<Vec<u8>, NoMemory>
    ensures { IfOk result (λ text. text.items ≡ line (Event.Shut w conn cause)) }
{
    let mut out = room(alloc)?;
    put_number(&mut out, b"shut w=", w)?;
    put_number(&mut out, b" conn=", conn)?;
    put_word(&mut out, b" cause=", shut_word(cause))?;
    Ok(out)
}

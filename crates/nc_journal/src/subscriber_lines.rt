//! The lines of what happens to a subscriber.
ghost use Rattle.std.specs.Prelude.{◌≡◌, IfOk};
ghost use Rattle.nc_journal.specs.EventLine.{line};

use crate::event::Event;
use crate::word::{EndedCause, ModeLine};
use crate::words::{ended_word, mode_word};
use nc_journal_field::{
    put_cursor, put_id, put_list, put_name, put_number, put_numbers, put_optional_number,
    put_start, put_truth, put_word, room,
};
use nc_types::{ChanList, ChanName, Cursor, List, MsgId, NoMemory, Start};
use std::alloc::Global;

pub(crate) fn subscribed_line(
    alloc: Global,
    w: u64,
    k: u64,
    conn: &Option<u64>,
    list: &ChanList,
    mode: ModeLine,
    start: &Start,
    timeout: u64,
    close: bool,
) -> Result<Vec<u8>, NoMemory>
    ensures { IfOk result (λ text. text.items ≡ line (Event.Subscribed w k conn.now list.now mode start.now timeout close)) }
{
    let mut out = room(alloc)?;
    put_number(&mut out, b"subscribed w=", w)?;
    put_number(&mut out, b" k=", k)?;
    put_optional_number(&mut out, b" conn=", conn)?;
    put_list(&mut out, b" list=", list)?;
    put_word(&mut out, b" mode=", mode_word(mode))?;
    put_start(&mut out, b" start=", start)?;
    put_number(&mut out, b" timeout=", timeout)?;
    put_truth(&mut out, b" close=", close)?;
    Ok(out)
}

pub(crate) fn started_line(alloc: Global, w: u64, k: u64, cur: &Cursor) -> Result<Vec<u8>, NoMemory>
    ensures { IfOk result (λ text. text.items ≡ line (Event.Started w k cur.now)) }
{
    let mut out = room(alloc)?;
    put_number(&mut out, b"started w=", w)?;
    put_number(&mut out, b" k=", k)?;
    put_cursor(&mut out, b" cur=", cur, None)?;
    Ok(out)
}

pub(crate) fn sent_line(
    alloc: Global,
    w: u64,
    k: u64,
    i: u64,
    c: &ChanName,
    id: &MsgId,
    cur: &Cursor,
    looks: &List<u64>,
) -> Result<Vec<u8>, NoMemory>
    ensures { IfOk result (λ text. text.items ≡ line (Event.Sent w k i c.now id.now cur.now looks.now)) }
{
    let mut out = room(alloc)?;
    put_number(&mut out, b"sent w=", w)?;
    put_number(&mut out, b" k=", k)?;
    put_number(&mut out, b" i=", i)?;
    put_name(&mut out, b" c=", c)?;
    put_id(&mut out, b" id=", id)?;
    put_cursor(&mut out, b" cur=", cur, Some(i))?;
    put_numbers(&mut out, b" looks=", looks.as_slice())?;
    Ok(out)
}

pub(crate) fn ended_line(
    alloc: Global,
    w: u64,
    k: u64,
    cause: EndedCause,
) -> Result<Vec<u8>, NoMemory>
    ensures { IfOk result (λ text. text.items ≡ line (Event.Ended w k cause)) }
{
    let mut out = room(alloc)?;
    put_number(&mut out, b"ended w=", w)?;
    put_number(&mut out, b" k=", k)?;
    put_word(&mut out, b" cause=", ended_word(cause))?;
    Ok(out)
}

//! The events of a subscriber, from their lines.
ghost use Rattle.nc_grammar.specs.Gives.{Gives};
ghost use Rattle.nc_grammar.specs.Rows.{row_at};
ghost use Rattle.nc_journal_read.specs.EventTable.{parts, subscribed_row, started_row, sent_row, ended_row};

use crate::field_reading::{cursor, id, name, number, numbers, optional_number, start, truth};
use crate::place_reading::sent_cursor;
use crate::word_reading::{ended_cause, mode};
use nc_grammar::{Fault, Reader};
use nc_journal::Event;
use nc_journal_list::list;
use std::alloc::Global;

pub(crate) fn subscribed(alloc: Global, reader: &mut Reader<'_>) -> Result<Event, Fault>
    ensures { Gives reader.new result (row_at parts subscribed_row reader.old) }
{
    let w = number(reader, b" w=")?;
    let k = number(reader, b" k=")?;
    let conn = optional_number(reader, b" conn=")?;
    let list = list(alloc, reader, b" list=")?;
    let mode = mode(reader, b" mode=")?;
    let start = start(alloc, reader, b" start=")?;
    let timeout = number(reader, b" timeout=")?;
    let close = truth(reader, b" close=")?;
    Ok(Event::Subscribed {
        w,
        k,
        conn,
        list,
        mode,
        start,
        timeout,
        close,
    })
}

pub(crate) fn started(alloc: Global, reader: &mut Reader<'_>) -> Result<Event, Fault>
    ensures { Gives reader.new result (row_at parts started_row reader.old) }
{
    let w = number(reader, b" w=")?;
    let k = number(reader, b" k=")?;
    let cur = cursor(alloc, reader, b" cur=")?;
    Ok(Event::Started { w, k, cur })
}

pub(crate) fn sent(alloc: Global, reader: &mut Reader<'_>) -> Result<Event, Fault>
    ensures { Gives reader.new result (row_at parts sent_row reader.old) }
{
    let w = number(reader, b" w=")?;
    let k = number(reader, b" k=")?;
    let i = number(reader, b" i=")?;
    let c = name(alloc, reader, b" c=")?;
    let id = id(reader, b" id=")?;
    let cur = sent_cursor(alloc, reader, b" cur=", i)?;
    let looks = numbers(alloc, reader, b" looks=")?;
    Ok(Event::Sent {
        w,
        k,
        i,
        c,
        id,
        cur,
        looks,
    })
}

pub(crate) fn ended(reader: &mut Reader<'_>) -> Result<Event, Fault>
    ensures { Gives reader.new result (row_at parts ended_row reader.old) }
{
    let w = number(reader, b" w=")?;
    let k = number(reader, b" k=")?;
    let cause = ended_cause(reader, b" cause=")?;
    Ok(Event::Ended { w, k, cause })
}

//! The events of a connection and its requests, from their lines.
ghost use Rattle.nc_grammar.specs.Gives.{Gives};
ghost use Rattle.nc_grammar.specs.Rows.{row_at};
ghost use Rattle.nc_journal_read.specs.EventTable.{parts, opened_row, got_row, asked_row, answered_row, replied_row, wrote_row, shut_row};

use crate::field_reading::{number, optional_info, optional_number, text, truth};
use crate::word_reading::{act, shut_cause};
use nc_grammar::{Fault, Reader};
use nc_journal::Event;
use nc_journal_list::optional_list;
use std::alloc::Global;

pub(crate) fn opened(reader: &mut Reader<'_>) -> Result<Event, Fault>
    ensures { Gives reader.new result (row_at parts opened_row reader.old) }
{
    let w = number(reader, b" w=")?;
    let conn = number(reader, b" conn=")?;
    Ok(Event::Opened { w, conn })
}

pub(crate) fn got(alloc: Global, reader: &mut Reader<'_>) -> Result<Event, Fault>
    ensures { Gives reader.new result (row_at parts got_row reader.old) }
{
    let w = number(reader, b" w=")?;
    let conn = number(reader, b" conn=")?;
    let bytes = text(alloc, reader, b" bytes=")?;
    Ok(Event::Got { w, conn, bytes })
}

pub(crate) fn asked(alloc: Global, reader: &mut Reader<'_>) -> Result<Event, Fault>
    ensures { Gives reader.new result (row_at parts asked_row reader.old) }
{
    let w = number(reader, b" w=")?;
    let r = number(reader, b" r=")?;
    let conn = optional_number(reader, b" conn=")?;
    let act = act(reader, b" act=")?;
    let list = optional_list(alloc, reader, b" list=")?;
    let status = number(reader, b" status=")?;
    let rule = number(reader, b" rule=")?;
    Ok(Event::Asked {
        w,
        r,
        conn,
        act,
        list,
        status,
        rule,
    })
}

pub(crate) fn answered(reader: &mut Reader<'_>) -> Result<Event, Fault>
    ensures { Gives reader.new result (row_at parts answered_row reader.old) }
{
    let w = number(reader, b" w=")?;
    let r = number(reader, b" r=")?;
    let conn = optional_number(reader, b" conn=")?;
    let status = number(reader, b" status=")?;
    let info = optional_info(reader, b" info=")?;
    let json = truth(reader, b" json=")?;
    let close = truth(reader, b" close=")?;
    Ok(Event::Answered {
        w,
        r,
        conn,
        status,
        info,
        json,
        close,
    })
}

pub(crate) fn replied(alloc: Global, reader: &mut Reader<'_>) -> Result<Event, Fault>
    ensures { Gives reader.new result (row_at parts replied_row reader.old) }
{
    let w = number(reader, b" w=")?;
    let conn = number(reader, b" conn=")?;
    let bytes = text(alloc, reader, b" bytes=")?;
    Ok(Event::Replied { w, conn, bytes })
}

pub(crate) fn wrote(alloc: Global, reader: &mut Reader<'_>) -> Result<Event, Fault>
    ensures { Gives reader.new result (row_at parts wrote_row reader.old) }
{
    let w = number(reader, b" w=")?;
    let conn = number(reader, b" conn=")?;
    let bytes = text(alloc, reader, b" bytes=")?;
    Ok(Event::Wrote { w, conn, bytes })
}

pub(crate) fn shut(reader: &mut Reader<'_>) -> Result<Event, Fault>
    ensures { Gives reader.new result (row_at parts shut_row reader.old) }
{
    let w = number(reader, b" w=")?;
    let conn = number(reader, b" conn=")?;
    let cause = shut_cause(reader, b" cause=")?;
    Ok(Event::Shut { w, conn, cause })
}

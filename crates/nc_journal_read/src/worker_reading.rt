//! The events of clocks, of holds given back, of alerts, and of the end of a step, from their lines.
ghost use Rattle.nc_grammar.specs.Gives.{Gives};
ghost use Rattle.nc_grammar.specs.Rows.{row_at};
ghost use Rattle.nc_journal_read.specs.EventTable.{parts, clock_row, released_row, made_row, took_row, pending_row};

use crate::alert_reading::alert;
use crate::field_reading::number;
use crate::word_reading::alert_kind;
use nc_grammar::{Fault, Reader};
use nc_journal::Event;
use std::alloc::Global;

pub(crate) fn clock(reader: &mut Reader<'_>) -> Result<Event, Fault>
    ensures { Gives reader.new result (row_at parts clock_row reader.old) }
{
    let w = number(reader, b" w=")?;
    let t = number(reader, b" t=")?;
    Ok(Event::Clock { w, t })
}

pub(crate) fn released(reader: &mut Reader<'_>) -> Result<Event, Fault>
    ensures { Gives reader.new result (row_at parts released_row reader.old) }
{
    let w = number(reader, b" w=")?;
    let owner = number(reader, b" owner=")?;
    let g = number(reader, b" g=")?;
    let slot = number(reader, b" slot=")?;
    Ok(Event::Released { w, owner, g, slot })
}

pub(crate) fn made(alloc: Global, reader: &mut Reader<'_>) -> Result<Event, Fault>
    ensures { Gives reader.new result (row_at parts made_row reader.old) }
{
    let w = number(reader, b" w=")?;
    let to = number(reader, b" to=")?;
    let n = number(reader, b" n=")?;
    let a = alert(alloc, reader, b" a=")?;
    Ok(Event::Made { w, to, n, a })
}

pub(crate) fn took(reader: &mut Reader<'_>) -> Result<Event, Fault>
    ensures { Gives reader.new result (row_at parts took_row reader.old) }
{
    let w = number(reader, b" w=")?;
    let from = number(reader, b" from=")?;
    let n = number(reader, b" n=")?;
    let a = alert_kind(reader, b" a=")?;
    Ok(Event::Took { w, from, n, a })
}

pub(crate) fn pending(reader: &mut Reader<'_>) -> Result<Event, Fault>
    ensures { Gives reader.new result (row_at parts pending_row reader.old) }
{
    let n = number(reader, b" n=")?;
    Ok(Event::Pending { n })
}

//! The events of channels and slots that a worker owns, from their lines.
ghost use Rattle.nc_grammar.specs.Gives.{Gives};
ghost use Rattle.nc_grammar.specs.Rows.{row_at};
ghost use Rattle.nc_journal_read.specs.EventTable.{parts, joined_row, parted_row, raised_row, left_row, looked_row, edged_row, granted_row, freed_row, removed_row};

use crate::field_reading::{id, name, number, optional_id};
use crate::word_reading::{left_cause, removed_cause};
use nc_grammar::{Fault, Reader};
use nc_journal::Event;
use std::alloc::Global;

pub(crate) fn joined(alloc: Global, reader: &mut Reader<'_>) -> Result<Event, Fault>
    ensures { Gives reader.new result (row_at parts joined_row reader.old) }
{
    let w = number(reader, b" w=")?;
    let c = name(alloc, reader, b" c=")?;
    let from = number(reader, b" from=")?;
    let k = number(reader, b" k=")?;
    Ok(Event::Joined { w, c, from, k })
}

pub(crate) fn parted(alloc: Global, reader: &mut Reader<'_>) -> Result<Event, Fault>
    ensures { Gives reader.new result (row_at parts parted_row reader.old) }
{
    let w = number(reader, b" w=")?;
    let c = name(alloc, reader, b" c=")?;
    let from = number(reader, b" from=")?;
    let k = number(reader, b" k=")?;
    Ok(Event::Parted { w, c, from, k })
}

pub(crate) fn raised(reader: &mut Reader<'_>) -> Result<Event, Fault>
    ensures { Gives reader.new result (row_at parts raised_row reader.old) }
{
    let w = number(reader, b" w=")?;
    let t = number(reader, b" t=")?;
    Ok(Event::Raised { w, t })
}

pub(crate) fn left(alloc: Global, reader: &mut Reader<'_>) -> Result<Event, Fault>
    ensures { Gives reader.new result (row_at parts left_row reader.old) }
{
    let w = number(reader, b" w=")?;
    let c = name(alloc, reader, b" c=")?;
    let id = id(reader, b" id=")?;
    let slot = number(reader, b" slot=")?;
    let cause = left_cause(reader, b" cause=")?;
    Ok(Event::Left {
        w,
        c,
        id,
        slot,
        cause,
    })
}

pub(crate) fn looked(alloc: Global, reader: &mut Reader<'_>) -> Result<Event, Fault>
    ensures { Gives reader.new result (row_at parts looked_row reader.old) }
{
    let w = number(reader, b" w=")?;
    let q = number(reader, b" q=")?;
    let from = number(reader, b" from=")?;
    let no = number(reader, b" no=")?;
    let c = name(alloc, reader, b" c=")?;
    let after = id(reader, b" after=")?;
    let floor = number(reader, b" floor=")?;
    let found = optional_id(reader, b" found=")?;
    Ok(Event::Looked {
        w,
        q,
        from,
        no,
        c,
        after,
        floor,
        found,
    })
}

pub(crate) fn edged(alloc: Global, reader: &mut Reader<'_>) -> Result<Event, Fault>
    ensures { Gives reader.new result (row_at parts edged_row reader.old) }
{
    let w = number(reader, b" w=")?;
    let q = number(reader, b" q=")?;
    let from = number(reader, b" from=")?;
    let no = number(reader, b" no=")?;
    let k = number(reader, b" k=")?;
    let c = name(alloc, reader, b" c=")?;
    let floor = number(reader, b" floor=")?;
    let last = id(reader, b" last=")?;
    Ok(Event::Edged {
        w,
        q,
        from,
        no,
        k,
        c,
        floor,
        last,
    })
}

pub(crate) fn granted(reader: &mut Reader<'_>) -> Result<Event, Fault>
    ensures { Gives reader.new result (row_at parts granted_row reader.old) }
{
    let w = number(reader, b" w=")?;
    let g = number(reader, b" g=")?;
    let slot = number(reader, b" slot=")?;
    let to = number(reader, b" to=")?;
    Ok(Event::Granted { w, g, slot, to })
}

pub(crate) fn freed(reader: &mut Reader<'_>) -> Result<Event, Fault>
    ensures { Gives reader.new result (row_at parts freed_row reader.old) }
{
    let w = number(reader, b" w=")?;
    let slot = number(reader, b" slot=")?;
    Ok(Event::Freed { w, slot })
}

pub(crate) fn removed(alloc: Global, reader: &mut Reader<'_>) -> Result<Event, Fault>
    ensures { Gives reader.new result (row_at parts removed_row reader.old) }
{
    let w = number(reader, b" w=")?;
    let c = name(alloc, reader, b" c=")?;
    let last = id(reader, b" last=")?;
    let cause = removed_cause(reader, b" cause=")?;
    Ok(Event::Removed { w, c, last, cause })
}

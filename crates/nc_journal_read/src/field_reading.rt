//! The values of a line, each behind its label.
//!
//! A label has the blank before it and its `=`.
ghost use Rattle.nc_grammar.specs.Gives.{Gives};
ghost use Rattle.nc_grammar.specs.Label.{field_at};
ghost use Rattle.nc_grammar.specs.Maybe.{option_at};
ghost use Rattle.nc_grammar.specs.Quoted.{quoted_at};
ghost use Rattle.nc_journal_read.specs.ValueReader.{u64_at, truth_at, written_id_at, cursor_at, start_at, info_at, full_at, numbers_at, subs_at};

use crate::value_reading::{
    any_cursor, any_numbers, any_start, channel_info, full_line, msg_id, numbers_or_dash,
    optional_msg_id,
};
use nc_grammar::{Fault, Reader};
use nc_types::{Bytes, ChanName, Cursor, FullLine, Info, List, MsgId, Start};
use std::alloc::Global;

pub(crate) fn number(reader: &mut Reader<'_>, label: &[u8]) -> Result<u64, Fault>
    ensures { Gives reader.new result (field_at label.now u64_at reader.old) }
{
    reader.label(label)?;
    reader.number(u64::MAX)
}

pub(crate) fn optional_number(reader: &mut Reader<'_>, label: &[u8]) -> Result<Option<u64>, Fault>
    ensures { Gives reader.new result (field_at label.now (option_at u64_at) reader.old) }
{
    reader.label(label)?;
    if reader.takes(b'-') {
        return Ok(None);
    }
    let n = reader.number(u64::MAX)?;
    Ok(Some(n))
}

pub(crate) fn truth(reader: &mut Reader<'_>, label: &[u8]) -> Result<bool, Fault>
    ensures { Gives reader.new result (field_at label.now truth_at reader.old) }
{
    reader.label(label)?;
    let n = reader.number(1)?;
    Ok(n > 0)
}

pub(crate) fn text(alloc: Global, reader: &mut Reader<'_>, label: &[u8]) -> Result<Bytes, Fault>
    ensures { Gives reader.new result (field_at label.now quoted_at reader.old) }
{
    reader.label(label)?;
    reader.quoted(alloc)
}

pub(crate) fn optional_text(
    alloc: Global,
    reader: &mut Reader<'_>,
    label: &[u8],
) -> Result<Option<Bytes>, Fault>
    ensures { Gives reader.new result (field_at label.now (option_at quoted_at) reader.old) }
{
    reader.label(label)?;
    if reader.takes(b'-') {
        return Ok(None);
    }
    let bytes = reader.quoted(alloc)?;
    Ok(Some(bytes))
}

pub(crate) fn name(alloc: Global, reader: &mut Reader<'_>, label: &[u8]) -> Result<ChanName, Fault>
    ensures { Gives reader.new result (field_at label.now quoted_at reader.old) }
{
    let bytes = text(alloc, reader, label)?;
    Ok(ChanName { bytes })
}

pub(crate) fn id(reader: &mut Reader<'_>, label: &[u8]) -> Result<MsgId, Fault>
    ensures { Gives reader.new result (field_at label.now written_id_at reader.old) }
{
    reader.label(label)?;
    msg_id(reader)
}

pub(crate) fn optional_id(reader: &mut Reader<'_>, label: &[u8]) -> Result<Option<MsgId>, Fault>
    ensures { Gives reader.new result (field_at label.now (option_at written_id_at) reader.old) }
{
    reader.label(label)?;
    optional_msg_id(reader)
}

pub(crate) fn cursor(alloc: Global, reader: &mut Reader<'_>, label: &[u8]) -> Result<Cursor, Fault>
    ensures { Gives reader.new result (field_at label.now cursor_at reader.old) }
{
    reader.label(label)?;
    any_cursor(alloc, reader)
}

pub(crate) fn start(alloc: Global, reader: &mut Reader<'_>, label: &[u8]) -> Result<Start, Fault>
    ensures { Gives reader.new result (field_at label.now start_at reader.old) }
{
    reader.label(label)?;
    any_start(alloc, reader)
}

pub(crate) fn optional_info(reader: &mut Reader<'_>, label: &[u8]) -> Result<Option<Info>, Fault>
    ensures { Gives reader.new result (field_at label.now (option_at info_at) reader.old) }
{
    reader.label(label)?;
    if reader.takes(b'-') {
        return Ok(None);
    }
    let info = channel_info(reader)?;
    Ok(Some(info))
}

pub(crate) fn optional_full(
    reader: &mut Reader<'_>,
    label: &[u8],
) -> Result<Option<FullLine>, Fault>
    ensures { Gives reader.new result (field_at label.now (option_at full_at) reader.old) }
{
    reader.label(label)?;
    if reader.takes(b'-') {
        return Ok(None);
    }
    let full = full_line(reader)?;
    Ok(Some(full))
}

pub(crate) fn numbers(
    alloc: Global,
    reader: &mut Reader<'_>,
    label: &[u8],
) -> Result<List<u64>, Fault>
    ensures { Gives reader.new result (field_at label.now numbers_at reader.old) }
{
    reader.label(label)?;
    any_numbers(alloc, reader)
}

pub(crate) fn subs(alloc: Global, reader: &mut Reader<'_>, label: &[u8]) -> Result<List<u64>, Fault>
    ensures { Gives reader.new result (field_at label.now subs_at reader.old) }
{
    reader.label(label)?;
    numbers_or_dash(alloc, reader)
}

//! The values of a line.
ghost use Rattle.std.specs.Prelude.{◌≡◌, ◌<◌, ◌++◌, ◌∷◌, [], length, IfOk, OnOk};
ghost use Rattle.nc_types.specs.Id.{IsTag};
ghost use Rattle.nc_types.specs.Cursor.{AreTags};
ghost use Rattle.nc_grammar.specs.Gives.{Gives, GivesBy};
ghost use Rattle.nc_grammar.specs.Reading.{map_read};
ghost use Rattle.nc_grammar.specs.Maybe.{option_at, joined_at, more_at};
ghost use Rattle.nc_journal_read.specs.ValueReader.{u64_at, tag_at, written_id_at, cursor_at, start_at, info_at, full_at, numbers_at, subs_at};

use nc_grammar::{Fault, Reader};
use nc_types::{Cursor, FullLine, GREATEST_TIME, Info, List, MsgId, Start};
use std::alloc::Global;

fn tag(reader: &mut Reader<'_>) -> Result<i32, Fault>
    ensures read { Gives reader.new result (tag_at reader.old) }
    ensures within { IfOk result (λ tag. IsTag tag) }
{
    if reader.takes(b'-') {
        return Ok(-1);
    }
    Ok(reader.number(65_535)? as i32)
}

/// Puts a tag behind others.
pub(crate) fn push_tag(reader: &mut Reader<'_>, tags: &mut List<i32>) -> Result<(), Fault>
    ensures read { GivesBy (λ u. tags.new) reader.new result (map_read (λ g. tags.old ++ g ∷ []) (tag_at reader.old)) }
    ensures within { OnOk result (AreTags tags.old → (0 < length tags.new) × AreTags tags.new) }
{
    let tag = tag(reader)?;
    tags.push(tag)?;
    Ok(())
}

/// Puts the tags that follow, each behind a comma, behind others.
pub(crate) fn push_more_tags(reader: &mut Reader<'_>, tags: &mut List<i32>) -> Result<(), Fault>
    ensures read { GivesBy (λ u. tags.new) reader.new result (map_read (λ more. tags.old ++ more) (more_at (length reader.old) tag_at reader.old)) }
    ensures within { OnOk result (0 < length tags.old → AreTags tags.old → (0 < length tags.new) × AreTags tags.new) }
{
    while reader.takes(b',') {
        push_tag(reader, tags)?;
    }
    Ok(())
}

fn tags(alloc: Global, reader: &mut Reader<'_>) -> Result<List<i32>, Fault>
    ensures read { Gives reader.new result (joined_at tag_at reader.old) }
    ensures within { IfOk result (λ tags. (0 < length tags) × AreTags tags) }
{
    let mut tags = List::new(alloc);
    push_tag(reader, &mut tags)?;
    push_more_tags(reader, &mut tags)?;
    Ok(tags)
}

pub(crate) fn msg_id(reader: &mut Reader<'_>) -> Result<MsgId, Fault>
    ensures { Gives reader.new result (written_id_at reader.old) }
{
    let time = reader.number(GREATEST_TIME)?;
    reader.label(b":")?;
    let tag = tag(reader)?;
    Ok(MsgId { time, tag })
}

pub(crate) fn optional_msg_id(reader: &mut Reader<'_>) -> Result<Option<MsgId>, Fault>
    ensures { Gives reader.new result (option_at written_id_at reader.old) }
{
    if reader.takes(b'-') {
        return Ok(None);
    }
    let id = msg_id(reader)?;
    Ok(Some(id))
}

pub(crate) fn any_cursor(alloc: Global, reader: &mut Reader<'_>) -> Result<Cursor, Fault>
    ensures { Gives reader.new result (cursor_at reader.old) }
{
    let time = reader.number(GREATEST_TIME)?;
    reader.label(b":")?;
    let tags = tags(alloc, reader)?;
    Ok(Cursor { time, tags })
}

pub(crate) fn any_start(alloc: Global, reader: &mut Reader<'_>) -> Result<Start, Fault>
    ensures { Gives reader.new result (start_at reader.old) }
{
    if reader.begins_with(b'o') {
        reader.label(b"oldest")?;
        return Ok(Start::Oldest);
    }
    if reader.begins_with(b'n') {
        reader.label(b"newest")?;
        return Ok(Start::Newest);
    }
    let cursor = any_cursor(alloc, reader)?;
    Ok(Start::Given(cursor))
}

pub(crate) fn channel_info(reader: &mut Reader<'_>) -> Result<Info, Fault>
    ensures { Gives reader.new result (info_at reader.old) }
{
    let messages = reader.number(u32::MAX as u64)? as u32;
    reader.label(b"/")?;
    let members = reader.number(u64::MAX)?;
    reader.label(b"/")?;
    let last = optional_msg_id(reader)?;
    Ok(Info {
        messages,
        members,
        last,
    })
}

pub(crate) fn full_line(reader: &mut Reader<'_>) -> Result<FullLine, Fault>
    ensures { Gives reader.new result (full_at reader.old) }
{
    let buffered = reader.number(u64::MAX)?;
    reader.label(b",")?;
    let held = reader.number(u64::MAX)?;
    Ok(FullLine { buffered, held })
}

/// Puts a number behind others.
fn push_number(reader: &mut Reader<'_>, numbers: &mut List<u64>) -> Result<(), Fault>
    ensures { GivesBy (λ u. numbers.new) reader.new result (map_read (λ n. numbers.old ++ n ∷ []) (u64_at reader.old)) }
{
    let n = reader.number(u64::MAX)?;
    numbers.push(n)?;
    Ok(())
}

/// Puts the numbers that follow, each behind a comma, behind others.
fn push_more_numbers(reader: &mut Reader<'_>, numbers: &mut List<u64>) -> Result<(), Fault>
    ensures { GivesBy (λ u. numbers.new) reader.new result (map_read (λ more. numbers.old ++ more) (more_at (length reader.old) u64_at reader.old)) }
{
    while reader.takes(b',') {
        push_number(reader, numbers)?;
    }
    Ok(())
}

/// Numbers joined by commas, or none where no number stands.
pub(crate) fn any_numbers(alloc: Global, reader: &mut Reader<'_>) -> Result<List<u64>, Fault>
    ensures { Gives reader.new result (numbers_at reader.old) }
{
    let mut numbers = List::new(alloc);
    match reader.number(u64::MAX) {
        Ok(first) => numbers.push(first)?,
        Err(Fault::Stuck) => return Ok(numbers),
        Err(Fault::NoMemory) => return Err(Fault::NoMemory),
    }
    push_more_numbers(reader, &mut numbers)?;
    Ok(numbers)
}

fn some_numbers(alloc: Global, reader: &mut Reader<'_>) -> Result<List<u64>, Fault>
    ensures { Gives reader.new result (joined_at u64_at reader.old) }
{
    let mut numbers = List::new(alloc);
    push_number(reader, &mut numbers)?;
    push_more_numbers(reader, &mut numbers)?;
    Ok(numbers)
}

/// Numbers joined by commas, or `-` for none.
pub(crate) fn numbers_or_dash(alloc: Global, reader: &mut Reader<'_>) -> Result<List<u64>, Fault>
    ensures { Gives reader.new result (subs_at reader.old) }
{
    if reader.takes(b'-') {
        return Ok(List::new(alloc));
    }
    some_numbers(alloc, reader)
}

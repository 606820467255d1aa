//! The cursor of a sent event, in which the tag of the sending place stands in brackets.
ghost use Rattle.std.specs.Prelude.{◌≡◌, ◌<◌, ◌++◌, ◌∷◌, [], length, codes, IfOk, OnOk};
ghost use Rattle.nc_types.specs.Cursor.{AreTags};
ghost use Rattle.nc_grammar.specs.Gives.{Gives, GivesBy};
ghost use Rattle.nc_grammar.specs.Reading.{map_read};
ghost use Rattle.nc_grammar.specs.Label.{field_at};
ghost use Rattle.nc_journal_read.specs.PlaceReader.{tag_before, bracketed_at, sent_tags_at, sent_cursor_at};

use crate::value_reading::{push_more_tags, push_tag};
use nc_grammar::{Fault, Reader};
use nc_types::{Cursor, GREATEST_TIME, List};
use std::alloc::Global;

/// Puts a tag with a text behind it behind others.
fn push_tag_before(reader: &mut Reader<'_>, tags: &mut List<i32>, label: &[u8]) -> Result<(), Fault>
    ensures read { GivesBy (λ u. tags.new) reader.new result (map_read (λ g. tags.old ++ g ∷ []) (tag_before label.now reader.old)) }
    ensures within { OnOk result (AreTags tags.old → (0 < length tags.new) × AreTags tags.new) }
{
    push_tag(reader, tags)?;
    reader.label(label)
}

/// The tags of which the one that is `ahead` places on stands in brackets.
fn bracketed_tags(alloc: Global, reader: &mut Reader<'_>, ahead: u64) -> Result<List<i32>, Fault>
    ensures read { Gives reader.new result (bracketed_at ahead reader.old) }
    ensures within { IfOk result (λ tags. (0 < length tags) × AreTags tags) }
{
    let mut tags = List::new(alloc);
    for _ in 0..ahead {
        push_tag_before(reader, &mut tags, b",")?;
    }
    reader.label(b"[")?;
    push_tag_before(reader, &mut tags, b"]")?;
    push_more_tags(reader, &mut tags)?;
    Ok(tags)
}

/// The tags where the place is the first: a single one has no brackets.
fn first_tags(alloc: Global, reader: &mut Reader<'_>) -> Result<List<i32>, Fault>
    ensures read { Gives reader.new result (sent_tags_at 0 reader.old) }
    ensures within { IfOk result (λ tags. (0 < length tags) × AreTags tags) }
{
    let mut tags = List::new(alloc);
    if !reader.takes(b'[') {
        push_tag(reader, &mut tags)?;
        return Ok(tags);
    }
    push_tag_before(reader, &mut tags, b"],")?;
    push_tag(reader, &mut tags)?;
    push_more_tags(reader, &mut tags)?;
    Ok(tags)
}

fn sent_tags(alloc: Global, reader: &mut Reader<'_>, place: u64) -> Result<List<i32>, Fault>
    ensures read { Gives reader.new result (sent_tags_at place reader.old) }
    ensures within { IfOk result (λ tags. (0 < length tags) × AreTags tags) }
{
    if place == 0 {
        first_tags(alloc, reader)
    } else {
        bracketed_tags(alloc, reader, place)
    }
}

/// The cursor that a message of a place moved.
pub(crate) fn sent_cursor(
    alloc: Global,
    reader: &mut Reader<'_>,
    label: &[u8],
    place: u64,
) -> Result<Cursor, Fault>
    ensures { Gives reader.new result (field_at label.now (sent_cursor_at place) reader.old) }
{
    reader.label(label)?;
    let time = reader.number(GREATEST_TIME)?;
    reader.label(b":")?;
    let tags = sent_tags(alloc, reader, place)?;
    Ok(Cursor { time, tags })
}

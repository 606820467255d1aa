//! Reads ids and tags.
//!
//! Each reader takes a value from the front of what is left; the public calls end the text and count the tags.
ghost use Rattle.std.specs.Prelude.{◌≡◌, ◌≢◌, ◌<◌, [], length, IfOk, IfErr, OnOk};
ghost use Rattle.nc_types.specs.Id.{IsTime, IsTag};
ghost use Rattle.nc_types.specs.Cursor.{AreTags};
ghost use Rattle.nc_grammar.specs.declared.fault.Fault.TheVariants.{Stuck};
ghost use Rattle.nc_grammar.specs.Gives.{Gives, GivesBy};
ghost use Rattle.nc_grammar.specs.Reading.{map_read};
ghost use Rattle.nc_grammar.specs.Whole.{IsWhole};
ghost use Rattle.nc_ident.specs.Spelling.{SpellsTags, SpellsId, AreTagsOf, IsIdOf};
ghost use Rattle.nc_ident.specs.Reader.{spelled_tag_at, spelled_element_at, put_last, spelled_tags_at, spelled_id_at};
ghost use Rattle.nc_ident.specs.declared.refusal.IdRefusal.TheVariants.{TagCount};
ghost use Rattle.nc_ident.specs.Refusal.{IsRefusedId, AreRefusedTags};

use crate::refusal::IdRefusal;
use nc_grammar::{Fault, Reader, Unread};
use nc_types::{Cursor, GREATEST_TIME, List};
use std::alloc::Global;

/// The greatest tag.
const GREATEST_TAG: u64 = 65_535;

/// Reads a tag: `-`, or 1 to 5 digits.
fn tag(reader: &mut Reader<'_>) -> Result<i32, Fault>
    ensures read { Gives reader.new result (spelled_tag_at reader.old) }
    ensures within { IfOk result (λ tag. IsTag tag) }
    ensures fault { IfErr result (λ fault. fault ≡ Stuck) }
{
    if reader.takes(b'-') {
        return Ok(-1);
    }
    Ok(reader.digits(5, GREATEST_TAG)? as i32)
}

/// Reads a tag, in brackets where it has them and they are still left.
fn element(reader: &mut Reader<'_>, brackets_left: &mut bool) -> Result<i32, Fault>
    ensures read { GivesBy (λ tag. (tag, brackets_left.new)) reader.new result (spelled_element_at brackets_left.old reader.old) }
    ensures within { IfOk result (λ tag. IsTag tag) }
    ensures fault { IfErr result (λ fault. fault ≡ Stuck) }
{
    if !*brackets_left || !reader.takes(b'[') {
        return tag(reader);
    }
    let tag = tag(reader)?;
    reader.label(b"]")?;
    *brackets_left = false;
    Ok(tag)
}

/// Reads a tag and puts it behind the others.
fn push_tag(
    reader: &mut Reader<'_>,
    tags: &mut List<i32>,
    brackets_left: &mut bool,
) -> Result<(), Fault>
    ensures read { GivesBy (λ _. (tags.new, brackets_left.new)) reader.new result
        (map_read (put_last tags.old) (spelled_element_at brackets_left.old reader.old)) }
    ensures within { OnOk result (AreTags tags.old → (0 < length tags.new) × AreTags tags.new) }
{
    let tag = element(reader, brackets_left)?;
    tags.push(tag)?;
    Ok(())
}

/// Reads tags joined by commas.
fn tags(alloc: Global, reader: &mut Reader<'_>) -> Result<List<i32>, Fault>
    ensures read { Gives reader.new result (spelled_tags_at reader.old) }
    ensures within { IfOk result (λ tags. (0 < length tags) × AreTags tags) }
{
    let mut tags = List::new(alloc);
    let mut brackets_left = true;
    push_tag(reader, &mut tags, &mut brackets_left)?;
    while reader.takes(b',') {
        push_tag(reader, &mut tags, &mut brackets_left)?;
    }
    Ok(tags)
}

/// Reads a time, a colon and tags.
fn id(alloc: Global, reader: &mut Reader<'_>) -> Result<Cursor, Fault>
    ensures { Gives reader.new result (spelled_id_at reader.old) }
{
    let time = reader.digits(12, GREATEST_TIME)?;
    reader.label(b":")?;
    let tags = tags(alloc, reader)?;
    Ok(Cursor { time, tags })
}

/// Reads a whole text as tags.
#[tactic(auto, using(crate::proofs::Pieces::tags_end))]
fn whole_tags(alloc: Global, text: &[u8]) -> Result<List<i32>, Unread>
    ensures read { IsWhole AreTagsOf text.now result }
    ensures within { IfOk result (λ tags. (0 < length tags) × AreTags tags) }
{
    let mut reader = Reader::new(text);
    let outcome = tags(alloc, &mut reader);
    reader.end(text, outcome)
}

/// Reads a whole text as an id.
#[tactic(auto, using(crate::proofs::Pieces::id_ends))]
fn whole_id(alloc: Global, text: &[u8]) -> Result<Cursor, Unread>
    ensures { IsWhole IsIdOf text.now result }
{
    let mut reader = Reader::new(text);
    let outcome = id(alloc, &mut reader);
    reader.end(text, outcome)
}

/// The cursor, where it has `n` tags.
fn counted(cursor: Cursor, n: usize) -> Result<Cursor, IdRefusal>
    ensures ok { IfOk result (λ same. (same ≡ cursor) × (length cursor.tags ≡ n)) }
    ensures err { IfErr result (λ refusal. (refusal ≡ TagCount (length cursor.tags)) × (length cursor.tags ≢ n)) }
{
    let found = cursor.tags.len();
    if found == n {
        Ok(cursor)
    } else {
        Err(IdRefusal::TagCount { found })
    }
}

/// The cursor of a text in the form that [`spell_id`](crate::spell_id) writes, where it has `n` tags.
///
/// A time is 1 to 12 digits, at most [`GREATEST_TIME`]; a tag is `-`, or 1 to 5 digits, at most 65,535. Digits may begin
/// with zeros, and brackets may stand round any one tag.
pub fn read_id(alloc: Global, text: &[u8], n: usize) -> Result<Cursor, IdRefusal>
    ensures ok { IfOk result (λ cursor. SpellsId text.now cursor × (length cursor.tags ≡ n)) }
    ensures err { IfErr result (λ refusal. IsRefusedId text.now n refusal) }
{
    let cursor = whole_id(alloc, text)?;
    counted(cursor, n)
}

/// The cursor of a time and a text in the form that [`spell_tags`](crate::spell_tags) writes, where it has `n` tags.
///
/// The tags are spelled as [`read_id`] says.
pub fn read_tags(alloc: Global, time: u64, text: &[u8], n: usize) -> Result<Cursor, IdRefusal>
    requires { IsTime time }
    ensures ok { IfOk result (λ cursor. (cursor.time ≡ time) × SpellsTags text.now cursor.tags × (length cursor.tags ≡ n)) }
    ensures err { IfErr result (λ refusal. AreRefusedTags text.now n refusal) }
{
    let tags = whole_tags(alloc, text)?;
    counted(Cursor { time, tags }, n)
}

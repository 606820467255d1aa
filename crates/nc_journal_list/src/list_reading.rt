//! Lists of channels, in which no name stands twice.
ghost use Rattle.std.specs.Prelude.{◌≡◌, ◌<◌, ◌++◌, ◌∷◌, [], length, OnOk};
ghost use Rattle.nc_types.specs.Channel.{AreDistinct};
ghost use Rattle.nc_grammar.specs.Gives.{Gives, GivesBy};
ghost use Rattle.nc_grammar.specs.Reading.{map_read};
ghost use Rattle.nc_grammar.specs.Label.{field_at};
ghost use Rattle.nc_grammar.specs.Maybe.{option_at};
ghost use Rattle.nc_journal_list.specs.NameReader.{new_name_at, list_at};

use nc_grammar::{Fault, Reader};
use nc_types::{ChanList, ChanName, SeenNames};
use std::alloc::Global;

/// Puts a name behind others that are none of it.
///
/// A repeated one is stuck in front of its closing sign: with more bytes it would be another.
fn push_new_name<'t>(
    alloc: Global,
    reader: &mut Reader<'t>,
    names: &mut SeenNames,
) -> Result<(), Fault>
    ensures read { GivesBy (λ u. names.new) reader.new result (map_read (λ name. names.old ++ name ∷ []) (new_name_at names.old reader.old)) }
    ensures distinct { OnOk result (AreDistinct names.old → (0 < length names.new) × AreDistinct names.new) }
{
    let start = reader.rest();
    let bytes = reader.quoted(alloc)?;
    if names.has(bytes.as_slice()) {
        let read = start.len() - reader.left();
        *reader = Reader::new(&start[read - 1..]);
        return Err(Fault::Stuck);
    }
    names.push(ChanName { bytes })?;
    Ok(())
}

fn any_list(alloc: Global, reader: &mut Reader<'_>) -> Result<ChanList, Fault>
    ensures { Gives reader.new result (list_at reader.old) }
{
    let mut names = SeenNames::new(alloc);
    push_new_name(alloc, reader, &mut names)?;
    while reader.takes(b',') {
        push_new_name(alloc, reader, &mut names)?;
    }
    Ok(ChanList {
        names: names.into_list(),
    })
}

/// A list behind a label. A repeated name is stuck in front of its closing sign.
pub fn list(alloc: Global, reader: &mut Reader<'_>, label: &[u8]) -> Result<ChanList, Fault>
    ensures { Gives reader.new result (field_at label.now list_at reader.old) }
{
    reader.label(label)?;
    any_list(alloc, reader)
}

/// A list behind a label, or `-` for none.
pub fn optional_list(
    alloc: Global,
    reader: &mut Reader<'_>,
    label: &[u8],
) -> Result<Option<ChanList>, Fault>
    ensures { Gives reader.new result (field_at label.now (option_at list_at) reader.old) }
{
    reader.label(label)?;
    if reader.takes(b'-') {
        return Ok(None);
    }
    let list = any_list(alloc, reader)?;
    Ok(Some(list))
}

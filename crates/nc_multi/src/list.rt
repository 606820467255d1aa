//! A list from names.
ghost use Rattle.std.specs.Prelude.{◌≡◌, ℕ, ◌<◌, ◌≤◌, ◌∷◌, [], length, List as Items, IfOk, IfErr, IfSome, IfNone, OnOk, OnErr};
ghost use Rattle.nc_multi.specs.declared.list.ListRefusal.TheVariants.{NoMemory as NoMemoryLeft};
ghost use Rattle.nc_multi.specs.Names.{distinct, IsEmpty, IsLonger, NoneIs, IsFirstNameWith, IsListOf, IsRefused, with_name};

use nc_types::{Bytes, ChanList, ChanName, List, NoMemory, SeenNames};
use std::alloc::Global;

/// Why names make no list. Places are counted from 0.
#[derive(Clone, Copy, Debug, PartialEq, Eq)]
pub enum ListRefusal {
    /// The name at the place, the first such, has no bytes; or there is no name, and the place is 0.
    Empty { place: usize },
    /// No name is empty, and the one at the place, the first such, is longer than it may be: its length in bytes.
    TooLong { place: usize, length: usize },
    /// No name is empty or too long, and there are more distinct names than there may be: their number.
    TooMany { n: usize },
    /// No name is empty or too long, and there was no memory for those that are distinct.
    NoMemory,
}

impl From<NoMemory> for ListRefusal {
    ghost from_gives = { λ _ e. e ≡ NoMemoryLeft };

    fn from(_: NoMemory) -> Self {
        ListRefusal::NoMemory
    }
}

/// The place of the first name without bytes.
fn first_empty(names: &[Bytes]) -> Option<usize>
    ensures some { IfSome result (λ place. (name : Items ℕ) × IsFirstNameWith IsEmpty names.now place name) }
    ensures none { IfNone result (NoneIs IsEmpty names.now) }
{
    for (place, name) in names.iter().enumerate() {
        if name.len() == 0 {
            return Some(place);
        }
    }
    None
}

/// The place of the first name that is longer than it may be, and its length.
fn first_longer(names: &[Bytes], longest: u32) -> Option<(usize, usize)>
    ensures some { IfSome result (λ found. (name : Items ℕ) × IsFirstNameWith (IsLonger longest) names.now found.0 name × (found.1 ≡ length name)) }
    ensures none { IfNone result (NoneIs (IsLonger longest) names.now) }
{
    for (place, name) in names.iter().enumerate() {
        if name.len() > longest as usize {
            return Some((place, name.len()));
        }
    }
    None
}

/// Puts a name behind the others, unless it is among them.
fn keep(kept: &mut SeenNames, name: &Bytes) -> Result<(), NoMemory>
    ensures ok { OnOk result (kept.new ≡ with_name kept.old name.now) }
    ensures err { OnErr result (kept.new ≡ kept.old) }
{
    if kept.has(name.as_slice()) {
        return Ok(());
    }
    let bytes = name.copied()?;
    kept.push(ChanName { bytes })
}

/// Each name at its first place.
fn distinct(alloc: Global, names: &[Bytes]) -> Result<List<ChanName>, NoMemory>
    ensures { IfOk result (λ kept. kept ≡ distinct names.now) }
{
    let mut kept = SeenNames::new(alloc);
    for name in names {
        keep(&mut kept, name)?;
    }
    Ok(kept.into_list())
}

/// The list of some names: each at its first place, of at most `longest` bytes, and at most `most` of them.
///
/// The names are refused for an empty one first, then for one that is too long, then for their number.
pub fn list_of(
    alloc: Global,
    names: &[Bytes],
    longest: u32,
    most: usize,
) -> Result<ChanList, ListRefusal>
    ensures ok { IfOk result (λ list. IsListOf names.now longest most list) }
    ensures err { IfErr result (λ refusal. IsRefused names.now longest most refusal) }
{
    if names.is_empty() {
        return Err(ListRefusal::Empty { place: 0 });
    }
    if let Some(place) = first_empty(names) {
        return Err(ListRefusal::Empty { place });
    }
    if let Some((place, length)) = first_longer(names, longest) {
        return Err(ListRefusal::TooLong { place, length });
    }
    let names = distinct(alloc, names)?;
    let n = names.len();
    if n > most {
        return Err(ListRefusal::TooMany { n });
    }
    Ok(ChanList { names })
}

//! Marks: the workers that are to be told of something, in ascending order.
ghost use Rattle.std.specs.Prelude.{◌≡◌, ◌≤◌, OnOk, length};
ghost use Rattle.nc_owner.specs.Ascending.{has_number, place_above, with_new_number};

use nc_types::{List, NoMemory};
use std::alloc::Global;
use std::mem;

/// Whether a worker is marked.
fn is_marked(marks: &[u8], from: u8) -> bool
    ensures { result ≡ has_number from marks.now }
{
    marks.iter().any(|mark| from == *mark)
}

/// The place of a worker among the marked ones.
fn place_of(marks: &[u8], from: u8) -> usize
    ensures place { result ≡ place_above from marks.now }
    ensures within { result ≤ length marks.now }
{
    for (place, mark) in marks.iter().enumerate() {
        if from < *mark {
            return place;
        }
    }
    marks.len()
}

/// A worker is among the marked ones from then on.
pub(crate) fn mark(alloc: Global, marks: &mut List<u8>, from: u8) -> Result<(), NoMemory>
    ensures { OnOk result (marks.new ≡ with_new_number marks.old from) }
{
    if is_marked(marks.as_slice(), from) {
        return Ok(());
    }
    let place = place_of(marks.as_slice(), from);
    let mut items = mem::replace(marks, List::new(alloc)).into_vec();
    items.insert(place, from)?;
    *marks = List::of(items);
    Ok(())
}

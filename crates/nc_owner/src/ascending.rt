//! Ascending lists of slots.
ghost use Rattle.std.specs.Prelude.{◌≡◌, ◌≤◌, length, IfOk};
ghost use Rattle.nc_owner.specs.Ascending.{place_above, with_number, without_number, ascending};

use nc_types::{List, NoMemory};
use std::alloc::Global;

/// The place of a slot among others: behind all that aren't greater.
fn place_above(slots: &[u32], slot: u32) -> usize
    ensures place { result ≡ place_above slot slots.now }
    ensures within { result ≤ length slots.now }
{
    for (place, other) in slots.iter().enumerate() {
        if slot < *other {
            return place;
        }
    }
    slots.len()
}

/// The slots with one more, at its place.
pub(crate) fn with_slot(slots: List<u32>, slot: u32) -> Result<List<u32>, NoMemory>
    ensures { IfOk result (λ more. more ≡ with_number slots slot) }
{
    let place = place_above(slots.as_slice(), slot);
    let mut items = slots.into_vec();
    items.insert(place, slot)?;
    Ok(List::of(items))
}

/// Takes out a slot.
fn take_out(slots: &mut Vec<u32>, slot: u32)
    ensures { slots.new.items ≡ without_number slots.old.items slot }
{
    slots.retain(|other| *other != slot);
}

/// The slots without one of them.
pub(crate) fn without_slot(slots: List<u32>, slot: u32) -> List<u32>
    ensures { result ≡ without_number slots slot }
{
    let mut items = slots.into_vec();
    take_out(&mut items, slot);
    List::of(items)
}

/// The slots in ascending order.
pub(crate) fn ascending(alloc: Global, slots: &[u32]) -> Result<List<u32>, NoMemory>
    ensures { IfOk result (λ sorted. sorted ≡ ascending slots.now) }
{
    let mut sorted = List::new(alloc);
    for slot in slots {
        sorted = with_slot(sorted, *slot)?;
    }
    Ok(sorted)
}

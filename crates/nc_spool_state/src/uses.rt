//! The uses of holds: how many found places of the spools rest on each.
ghost use Rattle.std.specs.Prelude.{◌≡◌, ◌<◌, ◌+◌, ◌-◌, ℕ, length, OnOk, OnErr, IfSome};
ghost use Rattle.std.specs.List.{position, list_any};
ghost use Rattle.nc_spool_state.specs.Uses.{one_use, uses_among, is_count, counted, tells_use};

use crate::place::Place;
use nc_types::NoMemory;

/// How many found places rest on the hold of a grant.
#[derive(Clone, Copy)]
pub(crate) struct Use {
    pub owner: u8,
    pub g: u64,
    pub places: u64,
}

impl Use {
    /// Whether this is the count of a grant.
    fn is_count(&self, owner: u8, g: u64) -> bool
        ensures { result ≡ is_count owner g self.now }
    {
        self.owner == owner && self.g == g
    }

    /// Whether this tells that a grant's hold has a use.
    fn tells_use(&self, owner: u8, g: u64) -> bool
        ensures { result ≡ tells_use owner g self.now }
    {
        self.is_count(owner, g) && self.places > 0
    }
}

/// The place of a grant's count, if there is one.
fn place_of(counts: &[Use], owner: u8, g: u64) -> Option<usize>
    ensures place { result ≡ position (is_count owner g) counts.now }
    ensures within { IfSome result (λ place. place < length counts.now) }
{
    counts.iter().position(|count| count.is_count(owner, g))
}

/// The place of a count that tells a use of a grant's hold, if there is one.
fn place_telling(counts: &[Use], owner: u8, g: u64) -> Option<usize>
    ensures place { result ≡ position (tells_use owner g) counts.now }
    ensures within { IfSome result (λ place. place < length counts.now) }
{
    counts.iter().position(|count| count.tells_use(owner, g))
}

/// Whether the counts tell a use of a grant's hold.
pub(crate) fn tell_use(counts: &[Use], owner: u8, g: u64) -> bool
    ensures { result ≡ list_any (tells_use owner g) counts.now }
{
    counts.iter().any(|count| count.tells_use(owner, g))
}

/// Counts a place, if it uses a hold. Without memory the counts stay.
fn count(counts: &mut Vec<Use>, place: &Place) -> Result<(), NoMemory>
    ensures ok { OnOk result ((o n : ℕ) → counted o n counts.new.items ≡ counted o n counts.old.items + one_use o n place.now) }
    ensures err { OnErr result (counts.new.items ≡ counts.old.items) }
{
    let Place::Found { owner, g, .. } = *place else {
        return Ok(());
    };
    match place_of(counts, owner, g) {
        Some(at) => {
            let Some(places) = counts[at].places.checked_add(1) else {
                return Err(NoMemory);
            };
            counts[at] = Use { owner, g, places };
        }
        None => {
            let places = 1;
            counts.push(Use { owner, g, places })?;
        }
    }
    Ok(())
}

/// Takes back the count of a place, if it uses a hold.
fn uncount(counts: &mut Vec<Use>, place: &Place)
    ensures { (o n : ℕ) → counted o n counts.new.items ≡ counted o n counts.old.items - one_use o n place.now }
{
    let Place::Found { owner, g, .. } = *place else {
        return;
    };
    let Some(at) = place_telling(counts, owner, g) else {
        return;
    };
    let places = counts[at].places - 1;
    if places == 0 {
        counts.remove(at);
    } else {
        counts[at] = Use { owner, g, places };
    }
}

/// Takes back the counts of some places.
pub(crate) fn uncount_all(counts: &mut Vec<Use>, places: &[Place])
    ensures { (o n : ℕ) → counted o n counts.new.items ≡ counted o n counts.old.items - uses_among o n places.now }
{
    for place in places {
        uncount(counts, place);
    }
}

/// Counts some places. Without memory the counts tell what they told.
pub(crate) fn count_all(counts: &mut Vec<Use>, places: &[Place]) -> Result<(), NoMemory>
    ensures ok { OnOk result ((o n : ℕ) → counted o n counts.new.items ≡ counted o n counts.old.items + uses_among o n places.now) }
    ensures err { OnErr result ((o n : ℕ) → counted o n counts.new.items ≡ counted o n counts.old.items) }
{
    for (at, place) in places.iter().enumerate() {
        if count(counts, place).is_err() {
            uncount_all(counts, &places[..at]);
            return Err(NoMemory);
        }
    }
    Ok(())
}

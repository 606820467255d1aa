//! Deciding: what a spool does, read off its places.
ghost use Rattle.std.specs.Prelude.{◌≡◌, ◌<◌, length, IfSome};
ghost use Rattle.nc_spool_state.specs.Choice.{is_below, is_any_asked, is_any_below, find_at, sooner, soonest, choice, PlaceWithin};

use crate::place::Place;
use nc_types::MsgId;

/// A message that was found: the place of its channel, its id, and the grant of its owner that holds it.
#[derive(Clone, Copy)]
pub struct Find {
    pub place: usize,
    pub id: MsgId,
    pub owner: u8,
    pub g: u64,
}

/// What a spool does: it waits, it looks behind a fence where something older may still come, or it sends a message.
#[derive(Clone, Copy)]
pub enum Choice {
    Wait,
    Fence(u64),
    Send(Find),
}

impl Place {
    /// Whether nothing was found, and the owner's floor was below a time.
    fn is_below(&self, time: u64) -> bool
        ensures { result ≡ is_below time self.now }
    {
        match self {
            Place::Nothing(quiet) => quiet.floor < time,
            _ => false,
        }
    }
}

/// The message that was found at a place, if there is one.
fn find_at(place: usize, known: &Place) -> Option<Find>
    ensures find { result ≡ find_at place known.now }
    ensures place { IfSome result (λ find. find.place ≡ place) }
{
    match *known {
        Place::Found { id, owner, g, .. } => Some(Find {
            place,
            id,
            owner,
            g,
        }),
        _ => None,
    }
}

/// The one with the lower time, and the first where the times are one.
fn sooner(first: Option<Find>, second: Option<Find>) -> Option<Find>
    ensures { result ≡ sooner first second }
{
    match (first, second) {
        (Some(a), Some(b)) => {
            if b.id.time < a.id.time {
                Some(b)
            } else {
                Some(a)
            }
        }
        (Some(a), None) => Some(a),
        (None, second) => second,
    }
}

/// The message with the least time, at the lowest place with that time.
fn soonest(places: &[Place]) -> Option<Find>
    ensures find { result ≡ soonest None 0 places.now }
    ensures within { IfSome result (λ find. find.place < length places.now) }
{
    let mut best = None;
    for (j, place) in places.iter().enumerate() {
        best = sooner(best, find_at(j, place));
    }
    best
}

/// Whether a look is in flight for one of some places.
fn is_any_asked(places: &[Place]) -> bool
    ensures { result ≡ is_any_asked places.now }
{
    places.iter().any(|place| place.is_asked())
}

/// Whether nothing was found at one of some places, and the owner's floor was below a time.
fn is_any_below(places: &[Place], time: u64) -> bool
    ensures { result ≡ is_any_below time places.now }
{
    places.iter().any(|place| place.is_below(time))
}

/// What a spool with these places does: it waits while a place is asked or nothing is found; else it sends the message with
/// the least time, once no owner's floor is below that time where nothing was found.
pub fn choose(places: &[Place]) -> Choice
    ensures choice { result ≡ choice places.now }
    ensures within { PlaceWithin (length places.now) result }
{
    if is_any_asked(places) {
        return Choice::Wait;
    }
    let Some(find) = soonest(places) else {
        return Choice::Wait;
    };
    let time = find.id.time;
    if is_any_below(places, time) {
        return Choice::Fence(time);
    }
    Choice::Send(find)
}

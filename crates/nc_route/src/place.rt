//! The location of a path.
ghost use Rattle.std.specs.Prelude.{◌≡◌};
ghost use Rattle.std.specs.List.{find};
ghost use Rattle.std.specs.Option.{option_copied};
ghost use Rattle.nc_route.specs.Place.{is_exactly, is_front, IsLocationOf};
ghost use Rattle.nc_route.specs.Steps.{longer, longest, location_of};

use nc_types::Location;

/// Whether a location is for this path alone.
fn is_exactly(path: &[u8], location: &Location) -> bool
    ensures { result ≡ is_exactly path.now location.now }
{
    location.exact && location.path.as_slice() == path
}

/// Whether a location is for each path that begins as its own, and this one does.
fn is_front(path: &[u8], location: &Location) -> bool
    ensures { result ≡ is_front path.now location.now }
{
    !location.exact && path.starts_with(location.path.as_slice())
}

fn exact_for<'c>(path: &[u8], locations: &'c [Location]) -> Option<&'c Location>
    ensures { option_copied result ≡ find (is_exactly path.now) locations.now }
{
    locations.iter().find(|location| is_exactly(path, location))
}

/// The location with the longer path, of the best one so far and one more.
fn longer<'c>(
    path: &[u8],
    best: Option<&'c Location>,
    location: &'c Location,
) -> Option<&'c Location>
    ensures { option_copied result ≡ longer path.now (option_copied best.entry) location.now }
{
    let Some(other) = best else {
        return if is_front(path, location) {
            Some(location)
        } else {
            None
        };
    };
    if is_front(path, location) && other.path.len() < location.path.len() {
        Some(location)
    } else {
        Some(other)
    }
}

fn longest<'c>(path: &[u8], locations: &'c [Location]) -> Option<&'c Location>
    ensures { option_copied result ≡ longest path.now locations.now }
{
    let mut best = None;
    for location in locations {
        best = longer(path, best, location);
    }
    best
}

/// The location of a path, as it is looked for: one for it alone, else the one with the longest path that begins it.
fn found<'c>(path: &[u8], locations: &'c [Location]) -> Option<&'c Location>
    ensures { option_copied result ≡ location_of path.now locations.now }
{
    exact_for(path, locations).or(longest(path, locations))
}

/// The location of a path: one for it alone, else the one with the longest path that begins it.
pub(crate) fn location_of<'c>(path: &[u8], locations: &'c [Location]) -> Option<&'c Location>
    ensures { IsLocationOf path.now locations.now (option_copied result) }
{
    found(path, locations)
}

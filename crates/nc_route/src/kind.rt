//! What a method asks for at a location.
ghost use Rattle.std.specs.Prelude.{◌≡◌};
ghost use Rattle.nc_route.specs.Rules.{has_subscriber, has_role, kind_of, allowed_at};

use nc_types::{Allow, Location};

/// What a method asks for.
#[derive(Clone, Copy, Debug, PartialEq, Eq)]
pub(crate) enum Kind {
    Publish,
    Inform,
    Delete,
    Subscribe,
}

fn has_subscriber(location: &Location) -> bool
    ensures { result ≡ has_subscriber location.now }
{
    location.longpoll || location.socket
}

/// Whether something is published or subscribed at a location.
pub(crate) fn has_role(location: &Location) -> bool
    ensures { result ≡ has_role location.now }
{
    location.publisher || has_subscriber(location)
}

/// What a method asks for at a location, or None where it isn't allowed.
pub(crate) fn kind_of(location: &Location, method: &[u8]) -> Option<Kind>
    ensures { result ≡ kind_of location.now method.now }
{
    if method == b"GET".as_slice() {
        return Some(if has_subscriber(location) {
            Kind::Subscribe
        } else {
            Kind::Inform
        });
    }
    if !location.publisher {
        None
    } else if method == b"POST".as_slice() || method == b"PUT".as_slice() {
        Some(Kind::Publish)
    } else if method == b"DELETE".as_slice() {
        Some(Kind::Delete)
    } else {
        None
    }
}

/// Whose methods a location allows.
pub(crate) fn allowed_at(location: &Location) -> Allow
    ensures { result ≡ allowed_at location.now }
{
    if location.publisher {
        Allow::Publisher
    } else {
        Allow::Subscriber
    }
}

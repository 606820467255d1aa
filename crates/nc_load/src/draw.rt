//! The numbers that a seed draws, and what each says.
ghost use Rattle.std.specs.Prelude.{◌≡◌, ◌<◌};
ghost use Rattle.nc_load.specs.Generator.{next, high};
ghost use Rattle.nc_load.specs.DrawnLine.{kind_of, draw_of};

const MULTIPLIER: u64 = 6_364_136_223_846_793_005;

const INCREMENT: u64 = 1_442_695_040_888_963_407;

/// What a line of a load does.
#[derive(Clone, Copy, Debug, PartialEq, Eq)]
pub(crate) enum Kind {
    /// A message is published.
    Post,
    /// A subscriber asks for the messages of two channels.
    Poll,
    /// A clock goes on.
    Clock,
    /// The messages that have expired leave.
    Reap,
    /// A channel is deleted.
    Remove,
}

/// What a number says.
#[derive(Clone, Copy, Debug, PartialEq, Eq)]
pub(crate) struct Draw {
    /// The worker that does what the line says.
    pub worker: u64,
    /// The number of a channel.
    pub channel: u64,
    /// The number of the channel behind it.
    pub other: u64,
    pub kind: Kind,
}

/// The number that comes behind a number.
pub(crate) fn next(x: u64) -> u64
    ensures { result ≡ next x }
{
    x.wrapping_mul(MULTIPLIER).wrapping_add(INCREMENT)
}

/// The kind of a line, by a value of 0 to 7.
fn kind_of(value: u64) -> Kind
    ensures { result ≡ kind_of value }
{
    match value {
        0..=2 => Kind::Post,
        3 | 4 => Kind::Poll,
        5 => Kind::Clock,
        6 => Kind::Reap,
        _ => Kind::Remove,
    }
}

/// What a number says by its higher bits.
pub(crate) fn draw_of(x: u64) -> Draw
    ensures { result ≡ draw_of (high x) }
{
    let r = x >> 33;
    let channel = r / 4 % 8;
    Draw {
        worker: r % 4,
        channel,
        other: (channel + 1) % 8,
        kind: kind_of(r / 32 % 8),
    }
}

//! How far an item was read.
ghost use Rattle.nc_http_in.specs.Held.{is_over};
ghost use Rattle.nc_http_in.specs.Reading.{part_of};
ghost use Rattle.std.specs.Prelude.{◌≡◌};

use crate::draft::Draft;
use nc_http_head::Place;
use nc_types::Request;

/// Which part of an item is next, and how far it was looked through: `seen` bytes of it hold no end.
#[derive(Drop)]
pub enum Stage {
    /// The CR and LF bytes before a request.
    Start,
    /// The head.
    Head {
        seen: usize,
        place: Place,
    },
    /// A body of `need` bytes.
    Body {
        draft: Draft,
        need: usize,
    },
    /// A chunk line.
    Line {
        draft: Draft,
        seen: usize,
    },
    /// The `size` bytes of a chunk, and the CR and LF behind them.
    Data {
        draft: Draft,
        size: usize,
    },
    /// The trailer.
    Trailer {
        draft: Draft,
        seen: usize,
        place: Place,
    },
    /// None: all is refused with this status.
    Bad {
        status: u16,
    },
}

impl Stage {
    /// Whether all is refused.
    pub fn is_over(&self) -> bool
        ensures { result ≡ is_over (part_of self.now) }
    {
        match self {
            Stage::Start => false,
            Stage::Head { .. } => false,
            Stage::Body { .. } => false,
            Stage::Line { .. } => false,
            Stage::Data { .. } => false,
            Stage::Trailer { .. } => false,
            Stage::Bad { .. } => true,
        }
    }
}

/// What a step found out.
#[derive(Drop)]
pub enum Found {
    /// A part was read, and this stage is next.
    On(Stage),
    /// More bytes are wanted.
    Waits(Stage),
    /// The request is whole.
    Whole(Request),
    /// All is refused with this status.
    Refused(u16),
    /// There was no memory: the same can be tried again.
    Short(Stage),
}

/// What a step found out, and how many bytes it took off.
#[derive(Drop)]
pub struct Turn {
    pub taken: usize,
    pub found: Found,
}

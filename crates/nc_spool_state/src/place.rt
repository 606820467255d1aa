//! What a spool knows of one of its channels.
ghost use Rattle.std.specs.Prelude.{◌≡◌};
ghost use Rattle.nc_spool_state.specs.Place.{is_asked, awaits_number, look_number};

use nc_types::MsgId;

/// An answer that found nothing: the owner's number of the look, and the owner's floor then.
#[derive(Clone, Copy)]
pub struct Quiet {
    pub q: u64,
    pub floor: u64,
}

/// What is known of a channel past the cursor of its spool.
#[derive(Clone, Copy)]
pub enum Place {
    /// A look is in flight, under this number. An earlier answer may be kept beside it.
    Asked {
        no: u64,
        earlier: Option<Quiet>,
    },
    /// There was nothing.
    Nothing(Quiet),
    /// A message was found, resting on the look `q`. It is held by the grant `g` of its owner.
    Found {
        q: u64,
        id: MsgId,
        owner: u8,
        g: u64,
    },
}

impl Place {
    /// Whether a look is in flight.
    pub fn is_asked(&self) -> bool
        ensures { result ≡ is_asked self.now }
    {
        matches!(self, Place::Asked { .. })
    }

    /// Whether the look of this number is in flight.
    pub fn awaits(&self, number: u64) -> bool
        ensures { result ≡ awaits_number number self.now }
    {
        match self {
            Place::Asked { no, .. } => *no == number,
            _ => false,
        }
    }

    /// The number of the look that the place rests on, where none is in flight.
    pub fn look_number(&self) -> u64
        ensures { result ≡ look_number self.now }
    {
        match self {
            Place::Asked { .. } => 0,
            Place::Nothing(quiet) => quiet.q,
            Place::Found { q, .. } => *q,
        }
    }
}

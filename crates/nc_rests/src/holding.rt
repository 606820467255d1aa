//! The places of spools as they are kept.
ghost use Rattle.nc_rests.specs.Awaiting.{PlaceAnswered};
ghost use Rattle.nc_rests.specs.Places.{HeardStays, PlaceAsks, PlaceLearns, PlaceLoses, PlaceNotices, PlaceStays, PlaceTakes};

/// An event keeps what is so of a place, but that its worker takes an alert of the channel's owner.
pub fn place_stays()
    ensures { PlaceStays }
{}

/// Such an alert keeps it too, unless it signals the channel.
pub fn place_takes()
    ensures { PlaceTakes }
{}

/// A place is asked by the making of its look.
pub fn place_asks()
    ensures { PlaceAsks }
{}

/// A place learns from the answer to its look.
pub fn place_learns()
    ensures { PlaceLearns }
{}

/// The answer that a place awaits comes from the owner of its channel, and the place learns from it.
pub fn place_answered()
    ensures { PlaceAnswered }
{}

/// A place hears of a message of its channel.
pub fn place_notices()
    ensures { PlaceNotices }
{}

/// A place hears that its channel is gone.
pub fn place_loses()
    ensures { PlaceLoses }
{}

/// What a place made of what it heard stays so.
pub fn heard_stays()
    ensures { HeardStays }
{}

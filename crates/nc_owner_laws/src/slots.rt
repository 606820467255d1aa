//! What an owner's steps leave of its slots.
ghost use Rattle.nc_owner_laws.specs.Used.{RoomLaw};

/// Where fewer slots are used than there are, one is unused.
pub fn room()
    ensures { RoomLaw }
{}

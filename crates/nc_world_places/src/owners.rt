//! The owners of reached worlds, as the places of spools need them.
ghost use Rattle.nc_world_places.specs.Notices.{ReachedOwnersNotice};
ghost use Rattle.nc_world_places.specs.Places.{ReachedOwnersTell};

/// Each notice is made by the owner of its channel.
pub fn owners_notice()
    ensures { ReachedOwnersNotice }
{}

/// Owners tell what places need, and keep what sends need.
pub fn owners_tell()
    ensures { ReachedOwnersTell }
{}

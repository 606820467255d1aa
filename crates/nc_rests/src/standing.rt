//! What owners tell and keep.
ghost use Rattle.nc_rests.specs.Owners.{OwnersKeep};
ghost use Rattle.nc_rests.specs.ShowsForSends.{StandsForSends};

/// An owner that stands for its local history tells what places need, and keeps what sends need.
pub fn stands_for_sends()
    ensures { StandsForSends }
{}

/// The whole history keeps the owners' rules where each local one does.
pub fn owners_keep()
    ensures { OwnersKeep }
{}

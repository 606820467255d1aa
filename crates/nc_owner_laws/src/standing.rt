//! An owner with its slots stands for its history: all of the above together, kept by each step.
ghost use Rattle.nc_owner_laws.specs.Shown.{StandsShows};
ghost use Rattle.nc_owner_laws.specs.OwnerStanding.{NewStands, OthersStand, SweepStands, PublishStands};

/// A new owner stands for the empty history.
pub fn new_stands()
    ensures { NewStands }
{}

/// Each step but a publish keeps it, with its events and alerts put on the history.
pub fn others_stand()
    ensures { OthersStand }
{}

/// A sweep of one channel keeps it.
pub fn sweep_stands()
    ensures { SweepStands }
{}

/// A publish keeps it.
pub fn publish_stands()
    ensures { PublishStands }
{}

/// What an owner keeps is what the definitions filter from the history that it stands for, and ids rise.
pub fn stands_shows()
    ensures { StandsShows }
{}

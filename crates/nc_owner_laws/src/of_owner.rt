//! Of which kinds the events of an owner's steps are, and that its channels are its own.
ghost use Rattle.nc_owner_laws.specs.Kinds.{OwnersKinds};
ghost use Rattle.nc_owner_laws.specs.OwnChannels.{NewOwns, StepsKeepOwn};
ghost use Rattle.nc_owner_laws.specs.Sweeping.{DeletionsAre, ReapsAre};

/// Each event of an owner's step is of one of ten kinds, and by the owner.
pub fn owners_kinds()
    ensures { OwnersKinds }
{}

/// A new owner has no channels.
pub fn new_owns()
    ensures { NewOwns }
{}

/// Each step on a channel of its own keeps that its channels are its own.
pub fn steps_keep_own()
    ensures { StepsKeepOwn }
{}

/// In the sweeps of a reap messages leave and channels of the owner go, and workers are told of these.
pub fn reaps_are()
    ensures { ReapsAre }
{}

/// In a deletion messages of a channel leave and it goes; workers are told, and who asked is answered.
pub fn deletions_are()
    ensures { DeletionsAre }
{}

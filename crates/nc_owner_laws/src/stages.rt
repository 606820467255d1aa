//! The stages of an owner's slots, by the last event that names each, are those that its row shows.
ghost use Rattle.nc_owner_laws.specs.Stages.{NewStaged, OthersStaged, PublishStaged};

/// Unused slots have no event that names them.
pub fn new_staged()
    ensures { NewStaged }
{}

/// Each step but a publish keeps it.
pub fn others_staged()
    ensures { OthersStaged }
{}

/// A publish keeps it.
pub fn publish_staged()
    ensures { PublishStaged }
{}

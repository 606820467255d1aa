//! What a worker heard of its looks is what happened to them at their owner, and who waits is marked.
ghost use Rattle.nc_owner_laws.specs.Removal.{RemovalWakes, RemovalPast};
ghost use Rattle.nc_owner_laws.specs.Wake.{NewWakes, LookWakes, PublishWakes, OthersWake};

/// It is so of the empty history.
pub fn new_wakes()
    ensures { NewWakes }
{}

/// A look keeps it.
pub fn look_wakes()
    ensures { LookWakes }
{}

/// A publish keeps it.
pub fn publish_wakes()
    ensures { PublishWakes }
{}

/// A join, a part, a question for information and polls keep it.
pub fn others_wake()
    ensures { OthersWake }
{}

/// A removal of a channel keeps it where each marked worker is told; then no look waits there.
pub fn removal_wakes()
    ensures { RemovalWakes }
{}

/// Where a look still waits after a removal, at another channel, no message is past its id.
pub fn removal_past()
    ensures { RemovalPast }
{}

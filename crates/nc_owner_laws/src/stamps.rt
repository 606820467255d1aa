//! The stamp rule over an owner's steps.
ghost use Rattle.nc_owner_laws.specs.Stamped.{PublishStamped, OthersStamped, FloorLaw};

/// The message that a publish stores has the stamp, so that ids rise.
pub fn publish_stamped()
    ensures { PublishStamped }
{}

/// The other steps keep the stamp rule.
pub fn others_stamped()
    ensures { OthersStamped }
{}

/// The floor never falls.
pub fn floor_rises()
    ensures { FloorLaw }
{}

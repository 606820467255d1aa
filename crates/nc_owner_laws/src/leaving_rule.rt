//! The leaving rule over an owner's steps.
ghost use Rattle.nc_owner_laws.specs.LeavingKept.{OthersLeave, PublishLeaves};

/// Each step but a publish keeps it, on a channel of the owner; a look where the grants are counted.
pub fn others_leave()
    ensures { OthersLeave }
{}

/// A publish keeps it.
pub fn publish_leaves()
    ensures { PublishLeaves }
{}

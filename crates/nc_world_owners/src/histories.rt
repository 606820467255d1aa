//! The histories of reached worlds.
ghost use Rattle.nc_world_owners.specs.WholeLaws.{HistoriesAreStamped, HistoriesLeaveByRule, HistoriesAreOfOwners, OwnersTellBuffers, HistoriesArePosted};

/// The stamp rule holds.
pub fn histories_are_stamped()
    ensures { HistoriesAreStamped }
{}

/// The leaving rule holds.
pub fn histories_leave_by_rule()
    ensures { HistoriesLeaveByRule }
{}

/// What is done on a channel is done by its owner, and asked for by workers that are there.
pub fn histories_are_of_owners()
    ensures { HistoriesAreOfOwners }
{}

/// The messages of a channel, and those that are buffered, are told by its owner's history alone.
pub fn owners_tell_buffers()
    ensures { OwnersTellBuffers }
{}

/// Packets are numbered and taken in their order.
pub fn histories_are_posted()
    ensures { HistoriesArePosted }
{}

//! The owners of reached worlds.
ghost use Rattle.nc_world_owners.specs.LocalLaws.{SlotsAreStaged, SlotsAreTaken, SlotsAreCounted, GrantsAreFew, AnswersAreNew, ChannelsAreOwned, AsksAreFromWorkers, MessagesLeaveByRule};

/// Each slot has the stage that the history tells.
pub fn slots_are_staged()
    ensures { SlotsAreStaged }
{}

/// A message takes the lowest unused slot, and a slot is freed that is retired.
pub fn slots_are_taken()
    ensures { SlotsAreTaken }
{}

/// A buffered slot counts the grants since its message was stored.
pub fn slots_are_counted()
    ensures { SlotsAreCounted }
{}

/// No message is granted more often than one may be.
pub fn grants_are_few()
    ensures { GrantsAreFew }
{}

/// Each look is answered once.
pub fn answers_are_new()
    ensures { AnswersAreNew }
{}

/// An owner's events are on channels that it owns.
pub fn channels_are_owned()
    ensures { ChannelsAreOwned }
{}

/// Owners are asked by workers that are there.
pub fn asks_are_from_workers()
    ensures { AsksAreFromWorkers }
{}

/// What leaves a buffer leaves by the leaving rule, in each owner's history.
pub fn messages_leave_by_rule()
    ensures { MessagesLeaveByRule }
{}

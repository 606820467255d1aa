//! The members of channels.
ghost use Rattle.nc_world_members.specs.Laws.{ReachedHasMembers, StandsOneWay, MembersStand};

/// Once the owner of a channel took the joins and parts on their way, its members are those who stand or start with the channel and aren't about to hear that it is gone;
/// nobody stands twice, and a number that was never subscribed stands nowhere.
pub fn reached_has_members()
    ensures { ReachedHasMembers }
{}

/// Whoever stands or starts with a channel is a member, is about to join, or is about to hear that it is gone, and one of the three.
pub fn stands_one_way()
    ensures { StandsOneWay }
{}

/// Where nothing is on its way between a worker and the owner of a channel, the members of this worker are those who stand or start with it.
pub fn members_stand()
    ensures { MembersStand }
{}

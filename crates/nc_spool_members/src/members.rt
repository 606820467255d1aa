//! The members of channels, as the spools tell them.
ghost use Rattle.nc_spool_members.specs.Members.{ComersJoin, TellMembers};
ghost use Rattle.nc_spool_members.specs.Singly.{KeepSingly};

/// Once the owner of a channel heard all that a call asks, its members are those who stand with the channel after the call; those
/// whom the removal of the channel names don't stand with it any more, and the owner hears nothing of them.
pub fn members_are_told<H>()
    ensures { TellMembers H }
{}

/// Between two calls nobody stands twice, and no list names a channel twice.
pub fn stay_singly<H>()
    ensures { KeepSingly H }
{}

/// Nobody joins a channel but who comes with it, once.
pub fn comers_join<H>()
    ensures { ComersJoin H }
{}

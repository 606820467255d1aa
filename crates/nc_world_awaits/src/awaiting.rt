//! Awaited looks.
ghost use Rattle.nc_world_awaits.specs.Awaits.{AwaitedIsUnanswered, LooksComeBack};

/// A worker took no answer to the look that one of its places awaits.
pub fn awaited_is_unanswered()
    ensures { AwaitedIsUnanswered }
{}

/// The look that a place awaits is on its way to an owner, or its answer is on its way back.
pub fn looks_come_back()
    ensures { LooksComeBack }
{}

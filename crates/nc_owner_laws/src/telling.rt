//! The events of each step, put on a history that tells an owner, tell the owner after the step.
ghost use Rattle.nc_owner_laws.specs.Telling.{NewTells, TouchTells, JoinTells, PartTells, LookTells, PolledTells, ClockTells, PublishTells};

/// The empty history tells a new owner.
pub fn new_tells()
    ensures { NewTells }
{}

/// The events of a question for information and of a sweep tell the owner after it.
pub fn touch_tells()
    ensures { TouchTells }
{}

/// The events of a join tell the owner after it.
pub fn join_tells()
    ensures { JoinTells }
{}

/// The events of a part tell the owner after it.
pub fn part_tells()
    ensures { PartTells }
{}

/// The events of a look tell the owner after it.
pub fn look_tells()
    ensures { LookTells }
{}

/// The events of polls of all retired slots tell the owner after them.
pub fn polled_tells()
    ensures { PolledTells }
{}

/// A clock event tells the owner with that clock.
pub fn clock_tells()
    ensures { ClockTells }
{}

/// The events of a publish tell the owner after it.
pub fn publish_tells()
    ensures { PublishTells }
{}

//! Each step of an owner keeps that it fits its slots.
ghost use Rattle.nc_owner_laws.specs.Keeping.{NewFits, TouchFits, JoinFits, PartFits, LookFits, RemoveFits, DeleteFits, SweepFits, PolledFits, ClockFits, HoldsFallLaw, ToldHoldsFall, PublishFits, PublishFinds};

/// A new owner fits unused slots.
pub fn new_fits()
    ensures { NewFits }
{}

/// A question for information keeps it.
pub fn touch_fits()
    ensures { TouchFits }
{}

/// A join keeps it.
pub fn join_fits()
    ensures { JoinFits }
{}

/// A part keeps it.
pub fn part_fits()
    ensures { PartFits }
{}

/// A look keeps it.
pub fn look_fits()
    ensures { LookFits }
{}

/// A removal of a channel keeps it.
pub fn remove_fits()
    ensures { RemoveFits }
{}

/// A deletion keeps it.
pub fn delete_fits()
    ensures { DeleteFits }
{}

/// A sweep of one channel keeps it.
pub fn sweep_fits()
    ensures { SweepFits }
{}

/// Polls of all retired slots keep it.
pub fn polled_fits()
    ensures { PolledFits }
{}

/// A new clock keeps it.
pub fn clock_fits()
    ensures { ClockFits }
{}

/// Where a publish stores its message, a leaving slot that is held once it has left was held before.
pub fn holds_fall()
    ensures { HoldsFallLaw }
{}

/// Where the numbers of holds are told, it is so of every publish.
pub fn told_holds_fall()
    ensures { ToldHoldsFall }
{}

/// A publish keeps it.
pub fn publish_fits()
    ensures { PublishFits }
{}

/// A publish that is neither late nor full finds an unused slot.
pub fn publish_finds()
    ensures { PublishFinds }
{}

//! The laws, one by one.
ghost use Rattle.nc_world_views.specs.Laws.{ToldIsHandled, WriteShows, GivenBackShows, SeatCounts, RingCounts, CarriedCounts};

/// What a worker did, where its polls agree with the told numbers of holds, is what it does in the pure world.
pub fn told_is_handled()
    ensures { ToldIsHandled }
{}

/// A write for one of the workers shows in the function that stands for all of them.
pub fn write_shows()
    ensures { WriteShows }
{}

/// Holds that are given back show in the counts of all workers.
pub fn given_back_shows()
    ensures { GivenBackShows }
{}

/// By a worker's step so many packets more are pending as wait with it.
pub fn seat_counts()
    ensures { SeatCounts }
{}

/// A packet that is taken out of a ring is pending no longer.
pub fn ring_counts()
    ensures { RingCounts }
{}

/// A carry leaves as many packets pending as before.
pub fn carried_counts()
    ensures { CarriedCounts }
{}

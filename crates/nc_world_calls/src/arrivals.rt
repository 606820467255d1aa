//! A subscriber that comes.
ghost use Rattle.nc_world_calls.specs.Arriving.{ArrivalKnows, ArrivalSendsNothing, ArrivalStands};

/// It is sent nothing in that step, nor is anyone.
pub fn arrival_sends_nothing()
    ensures { ArrivalSendsNothing }
{}

/// It stands then at the key of its spool, as all others do.
pub fn arrival_stands()
    ensures { ArrivalStands }
{}

/// What is so of each place is kept.
pub fn arrival_knows()
    ensures { ArrivalKnows }
{}

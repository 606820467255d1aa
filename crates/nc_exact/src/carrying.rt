//! What is carried from event to event, and what it promises.
ghost use Rattle.nc_exact.specs.Carried.{CarriedPromises};

/// What is carried, event by event, promises what a user relies on.
pub fn carried_promises()
    ensures { CarriedPromises }
{}

//! The places of each worker's spools.
ghost use Rattle.nc_world_places.specs.Places.{ReachedHasPlaces, ReachedSpoolsKnow};

/// In each reached world each place of each spool holds.
pub fn places_hold()
    ensures { ReachedHasPlaces }
{}

/// So each spool knows what its subscribers rely on.
pub fn spools_know()
    ensures { ReachedSpoolsKnow }
{}

//! A spool that decides.
ghost use Rattle.nc_world_told.specs.Laws.{DecidesStand, DecidesWell};

/// What a spool sends by its places is lawful.
pub fn decides_well()
    ensures { DecidesWell }
{}

/// After it each subscriber of each spool stands at its key.
pub fn decides_stand()
    ensures { DecidesStand }
{}

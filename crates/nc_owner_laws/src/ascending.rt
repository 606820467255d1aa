//! What an owner keeps as sets ascends.
ghost use Rattle.nc_owner_laws.specs.Ascends.{StandsAscends};

/// Of an owner that stands for its history the retired slots, the members and the marked workers ascend.
pub fn stands_ascends()
    ensures { StandsAscends }
{}

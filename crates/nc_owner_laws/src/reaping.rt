//! A reap over histories.
ghost use Rattle.nc_owner_laws.specs.Reaping.{ReapKeeps, ReapHoldsFit};

/// After a reap the owner stands for its history, in which all is in order and each look is answered once; its events are the owner's own.
pub fn reap_keeps()
    ensures { ReapKeeps }
{}

/// After a reap no slot has more holds than it can have, where their numbers are told.
pub fn reap_holds_fit()
    ensures { ReapHoldsFit }
{}

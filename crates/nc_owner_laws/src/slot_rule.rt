//! Of the slot rule what an owner keeps by itself: a message takes the lowest unused slot, and a slot is freed that is retired.
ghost use Rattle.nc_owner_laws.specs.SlotRule.{OthersKeepSlots, PublishKeepsSlots};

/// Each step but a publish keeps it.
pub fn others_keep_slots()
    ensures { OthersKeepSlots }
{}

/// A publish keeps it.
pub fn publish_keeps_slots()
    ensures { PublishKeepsSlots }
{}

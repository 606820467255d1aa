//! Who is sent a message holds it.
ghost use Rattle.nc_world_sent_holds.specs.SentHolds.{SentIsHeld, HistoriesKeepSlotRule, HistoriesCountHolds};

/// A worker that sends a message holds it.
pub fn sent_is_held()
    ensures { SentIsHeld }
{}

/// The slot rule holds of the history of each reached world.
pub fn histories_keep_slot_rule()
    ensures { HistoriesKeepSlotRule }
{}

/// So there the releases of a slot's holds, with the holds that there are, are the grants.
pub fn histories_count_holds()
    ensures { HistoriesCountHolds }
{}

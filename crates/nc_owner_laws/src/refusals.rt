//! The rules in their own words refuse what they should.
ghost use Rattle.nc_owner_laws.specs.Refused.{RefusesOtherNumbers, RefusesOtherStatus, RefusesNoAnswer, RefusesUnretired, RefusesUnheldAsHeld, RefusesUsedSlot};

/// 507 with other numbers than those of the slots in use is no full answer.
pub fn other_numbers()
    ensures { RefusesOtherNumbers }
{}

/// A publish is answered by no other status.
pub fn other_status()
    ensures { RefusesOtherStatus }
{}

/// Nor is it left without an answer.
pub fn no_answer()
    ensures { RefusesNoAnswer }
{}

/// No slot is freed that wasn't retired.
pub fn unretired()
    ensures { RefusesUnretired }
{}

/// No poll shows a slot held that can't be held.
pub fn unheld_as_held()
    ensures { RefusesUnheldAsHeld }
{}

/// No message is stored in a slot that was used.
pub fn used_slot()
    ensures { RefusesUsedSlot }
{}

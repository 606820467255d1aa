//! That a hold shows the message that was put. There is no code here: the function's contract is a law.
//!
//! What the words tell of holds, in each state between two steps, are the laws of `nc_slot_rule`.
ghost use Rattle.std.specs.Prelude.{◌≡◌, Bool, Some};
ghost use Rattle.nc_types.specs.Message.{Message};
ghost use Rattle.nc_slots.specs.Slot.{filled, granted, message_of, polled};
ghost use Rattle.nc_slots.specs.declared.slot.Slot.{Slot as SlotOf};

/// A slot has the message that was put into it, through every grant and poll, until it is retired. A hold has its slot's
/// message at its grant, and nothing changes a hold until it is released.
pub fn message_stays()
    ensures put { (message : Message) → message_of (filled message) ≡ Some message }
    ensures granted { (slot : SlotOf Message) → message_of (granted slot) ≡ message_of slot }
    ensures polled { (slot : SlotOf Message) (is_held : Bool) (message : Message) → message_of slot ≡ Some message
        → message_of (polled is_held slot) ≡ Some message }
{}

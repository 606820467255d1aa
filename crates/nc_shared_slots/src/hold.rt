//! Holds of shared messages.
ghost use Rattle.std.specs.Prelude.{◌≡◌};

use crate::naming::Naming;
use nc_slot_rule::Pass;
use nc_types::Msg;
use std::alloc::Global;
use std::marker::{Model, PhantomData};
use std::sync::Arc;

/// A hold of a message in shared slots, which may be given to another thread. Its type names the set of slots.
///
/// Contracts see whose slot it is of, and the message. One that is dropped is never given back: its slot stays held.
#[derive(Drop)]
pub struct SharedHold<J: Naming> {
    pub(crate) owner: u8,
    pub(crate) slot: u32,
    pub(crate) message: Arc<Msg, Global>,
    pub(crate) word: usize,
    pub(crate) pass: Pass,
    pub(crate) of: PhantomData<J>,
}

impl<J: Naming> Model for SharedHold<J> {
    ghost use Rattle.std.specs.Arc.{arc_value};
    ghost use Rattle.nc_slots.specs.Slots.{HoldAt};
    ghost use Rattle.nc_shared_slots.specs.Shared.{IsHold};

    ghost Value = { HoldAt };

    ghost view = { λ h. record { owner = h.owner; slot = h.slot; message = arc_value h.message } };

    ghost invariant = { λ h. IsHold J.table h.pass.table_id h.pass.me.0 h.word };
}

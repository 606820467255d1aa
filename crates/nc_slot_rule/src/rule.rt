//! The rule as a rule of a table of words, and what its steps tell.
ghost use Rattle.nc_slot_rule.specs.Rule.{Kept};
ghost use Rattle.nc_slot_rule.specs.Views.{all_unused, without_grant, hold_of, rest_of, part_of};
ghost use Rattle.nc_slot_rule.specs.Steps.{puts, grants, releases, unbuffers, polls};

use crate::view::{Seen, Size};
use atomic_table::{Play, Seat, Split, Table, TableRule};
use std::alloc::Global;

/// The rule of the words of slots and of what each seat knows.
pub struct SlotRule;

impl TableRule<(), Seen, Size> for SlotRule {
    ghost holds = { λ size s. Kept s.words s.views };

    ghost first = { λ size. all_unused size.per size.words };
}

/// The words of all slots, which threads share.
pub type Words = Table<(), Seen, Size, SlotRule, Global>;

/// A seat at the words, which has no bytes: an owner's, or that of a live hold.
pub type Pass = Seat<(), Seen>;

pub(crate) struct Put;

impl Play<(), Seen> for Put {
    ghost then = { puts };
}

pub(crate) struct Grant;

impl Play<(), Seen> for Grant {
    ghost then = { grants };
}

pub(crate) struct Release;

impl Play<(), Seen> for Release {
    ghost then = { releases };
}

pub(crate) struct Unbuffer;

impl Play<(), Seen> for Unbuffer {
    ghost then = { unbuffers };
}

pub(crate) struct Poll;

impl Play<(), Seen> for Poll {
    ghost then = { polls };
}

/// Cuts a new live hold off its owner.
pub(crate) struct ToHold;

impl Split<Seen> for ToHold {
    ghost left = { without_grant };

    ghost right = { hold_of };
}

/// Cuts the slots of one owner off all that are left.
pub(crate) struct ToOwner;

impl Split<Seen> for ToOwner {
    ghost left = { rest_of };

    ghost right = { part_of };
}

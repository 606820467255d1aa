//! Ids of messages and their order.
ghost use Rattle.std.specs.Prelude.{◌≡◌};

use std::marker::Model;

/// The greatest time of a message, in seconds since 1970: the last second of the year 9999.
pub const GREATEST_TIME: u64 = 253_402_300_799;

/// A message's id: its second, and its number within that second.
///
/// The time is at most [`GREATEST_TIME`], and the tag is -1 to 65,535.
/// The tag -1 stands for no message of that second. Ids are ordered by time, then by tag.
#[derive(Clone, Copy, Debug, PartialEq, Eq, PartialOrd, Ord)]
pub struct MsgId {
    pub time: u64,
    pub tag: i32,
}

impl Model for MsgId {
    ghost use Rattle.nc_types.specs.Id.{Id, IsTime, IsTag};

    ghost Value = { Id };

    ghost view = { λ m. record { time = m.time; tag = m.tag } };

    ghost invariant = { λ m. IsTime m.time × IsTag m.tag };

    ghost inverse = { λ d. record { time = d.time; tag = d.tag } };
}

impl MsgId {
    ghost use Rattle.nc_types.specs.Id.{is_past, no_id};

    /// Before every message: the time 0 and the tag -1.
    pub const NONE: MsgId = MsgId { time: 0, tag: -1 };

    /// Whether this id comes after another.
    pub fn past(&self, after: &MsgId) -> bool
        ensures { result ≡ is_past self.now after.now }
    {
        self.time > after.time || (self.time == after.time && self.tag > after.tag)
    }
}

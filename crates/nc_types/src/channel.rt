//! Channels: their names, their owners, and lists of them.
ghost use Rattle.std.specs.Prelude.{◌≡◌, ◌<◌, IfOk, bytes_eq};
ghost use Rattle.std.proofs.Common.{rules};
ghost use Rattle.std.specs.Cmp.{partial_order_from_own_ties};
ghost use Rattle.std.specs.Cmp.Rules.{comparing};
ghost use Rattle.std.specs.Cmp.Lexicographic.{slice_cmp};
ghost use Rattle.std.specs.Ordering.{nat_cmp, as_partial_cmp};

use crate::list::{Bytes, List, NoMemory};
use std::cmp::Ordering;
use std::marker::Model;

/// The name of a channel, which contracts see as its bytes.
#[derive(Drop)]
pub struct ChanName {
    pub bytes: Bytes,
}

impl Model for ChanName {
    ghost use Rattle.std.specs.Prelude.{ℕ, List as Items};

    ghost Value = { Items ℕ };

    ghost view = { λ name. name.bytes };
}

impl PartialEq for ChanName {
    ghost eq = { bytes_eq };

    ghost laws = { Prim.search (comparing, rules) };

    fn eq(&self, other: &ChanName) -> bool {
        self.bytes.as_slice() == other.bytes.as_slice()
    }
}

impl Eq for ChanName {
    ghost laws = { Prim.search (comparing, rules) };
}

/// Names are ordered by their bytes, as the words of a dictionary.
impl Ord for ChanName {
    ghost cmp = { slice_cmp nat_cmp };

    ghost total = { Prim.search (comparing, rules) };

    ghost matches_partial_cmp = { Prim.search (comparing, rules) };

    ghost matches_eq = { Prim.search (comparing, rules) };

    fn cmp(&self, other: &ChanName) -> Ordering {
        self.bytes.as_slice().cmp(other.bytes.as_slice())
    }
}

impl PartialOrd for ChanName {
    ghost partial_cmp = { as_partial_cmp (slice_cmp nat_cmp) };

    ghost laws = { partial_order_from_own_ties (Prim.search (comparing, rules)) (Prim.search (comparing, rules)) };

    fn partial_cmp(&self, other: &ChanName) -> Option<Ordering> {
        Some(self.cmp(other))
    }
}

impl ChanName {
    ghost use Rattle.nc_types.specs.Channel.{owner_of};

    /// The number of the worker that owns the channel, of `workers` in all.
    pub fn owner(&self, workers: u8) -> u8
        requires { 0 < workers }
        ensures { result ≡ owner_of workers self.now }
    {
        let mut hash = 0u32;
        for byte in self.bytes.as_slice() {
            hash = hash.wrapping_mul(31).wrapping_add(u32::from(*byte));
        }
        (hash % u32::from(workers)) as u8
    }

    /// The same name once more.
    pub fn copied(&self) -> Result<ChanName, NoMemory>
        ensures { IfOk result (λ copy. copy ≡ self.now) }
    {
        let bytes = self.bytes.copied()?;
        Ok(ChanName { bytes })
    }
}

/// The channels of a subscriber: distinct names, at least one.
#[derive(Drop)]
pub struct ChanList {
    pub names: List<ChanName>,
}

impl Model for ChanList {
    ghost use Rattle.std.specs.Prelude.{ℕ, List as Items, ◌<◌, length};
    ghost use Rattle.nc_types.specs.Channel.{AreDistinct};

    ghost Value = { Items (Items ℕ) };

    ghost view = { λ list. list.names };

    ghost invariant = { λ list. (0 < length list.names) × AreDistinct list.names };
}

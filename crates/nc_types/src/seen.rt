//! Names in their order, among which a name is found quickly.
//!
//! Most lists have a few names, and those are looked through one by one. Names behind the first few stand in a set as well.
//! So the time to put in n names grows as n log n.
ghost use Rattle.std.specs.Prelude.{◌≡◌, ◌++◌, ◌∷◌, [], OnOk, OnErr, bytes_eq};
ghost use Rattle.std.specs.List.{list_any};

use crate::channel::ChanName;
use crate::list::{List, NoMemory};
use std::alloc::Global;
use std::collections::BTreeSet;
use std::marker::Model;

/// How many names stand in the list alone.
const FEW: usize = 8;

/// Names in the order in which they came, which contracts see as the list of the names.
///
/// To be asked for a name takes at most the logarithm of the number of names, and so does one name more.
#[derive(Drop)]
pub struct SeenNames {
    names: Vec<ChanName>,
    /// The bytes of the names behind the first few.
    later: BTreeSet<Vec<u8>>,
}

impl Model for SeenNames {
    ghost use Rattle.std.specs.Prelude.{ℕ, List as Items, drop};
    ghost use Rattle.nc_types.specs.Names.{IsSetOf};

    ghost Value = { Items (Items ℕ) };

    ghost view = { λ seen. seen.names.items };

    ghost invariant = { λ seen. IsSetOf (drop 8 seen.names.items) seen.later };
}

/// Whether a name is among some.
fn is_among(name: &[u8], names: &[ChanName]) -> bool
    ensures { result ≡ list_any (bytes_eq name.now) names.now }
{
    for other in names {
        if name == other.bytes.as_slice() {
            return true;
        }
    }
    false
}

impl SeenNames {
    /// No names, with memory from `alloc`.
    pub fn new(alloc: Global) -> SeenNames
        ensures { result ≡ [] }
    {
        SeenNames {
            names: Vec::new(alloc),
            later: BTreeSet::new(alloc),
        }
    }

    /// Whether a name is among them.
    pub fn has(&self, name: &[u8]) -> bool
        ensures { result ≡ list_any (bytes_eq name.now) self.now }
    {
        let few = self.names.len().min(FEW);
        is_among(name, &self.names[..few]) || self.later.contains(name)
    }

    /// Puts a name behind the others. Without memory the names stay as they were.
    pub fn push(&mut self, name: ChanName) -> Result<(), NoMemory>
        ensures ok { OnOk result (self.new ≡ self.old ++ name ∷ []) }
        ensures err { OnErr result (self.new ≡ self.old) }
    {
        self.names.reserve(1)?;
        if self.names.len() >= FEW {
            let bytes = name.bytes.copied()?;
            self.later.insert(bytes.into_vec())?;
        }
        self.names.push_reserved(name);
        Ok(())
    }

    /// The names as a list, which takes no memory.
    pub fn into_list(self) -> List<ChanName>
        ensures { result ≡ self }
    {
        List::of(self.names)
    }
}

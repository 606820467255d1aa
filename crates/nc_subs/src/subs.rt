//! All subscribers.
ghost use Rattle.std.specs.Prelude.{◌≡◌, [], None, Some, IfNone, IfSome, OnOk, OnErr};
ghost use Rattle.nc_subs.specs.Subs.{sub_of, with_sub, without_sub, due_of, NoneDue, IsLeastDue};

use crate::sub::Sub;
use nc_types::NoMemory;
use std::alloc::Global;
use std::collections::BTreeMap;
use std::marker::Model;

/// The subscribers of a worker, which contracts see as pairs of a number and a subscriber, in ascending order.
#[derive(Drop)]
pub struct Subs {
    subs: BTreeMap<u64, Sub>,
}

impl Model for Subs {
    ghost use Rattle.std.specs.Prelude.{ℕ, List as Items};
    ghost use Rattle.nc_subs.specs.declared.sub.Sub.{Sub as SubAt};

    ghost Value = { Items (ℕ × SubAt) };

    ghost view = { λ s. s.subs.entries };
}

impl Subs {
    /// No subscribers.
    pub fn new(alloc: Global) -> Subs
        ensures { result ≡ [] }
    {
        Subs {
            subs: BTreeMap::new(alloc),
        }
    }

    /// Keeps a subscriber under its number. Without memory all stays as it was, and the subscriber is lost.
    pub fn add(&mut self, sub: Sub) -> Result<(), NoMemory>
        ensures ok { OnOk result (self.new ≡ with_sub sub self.old) }
        ensures err { OnErr result (self.new ≡ self.old) }
    {
        self.subs.insert(sub.k, sub)?;
        Ok(())
    }

    /// The subscriber of a number. None comes exactly where there is no such subscriber.
    pub fn get(&self, k: u64) -> Option<&Sub>
        ensures some { IfSome result (λ sub. sub_of k self.now ≡ Some sub.now) }
        ensures none { IfNone result (sub_of k self.now ≡ None) }
    {
        self.subs.get(&k)
    }

    /// Takes out the subscriber of a number. None comes exactly where there is no such subscriber.
    pub fn remove(&mut self, k: u64) -> Option<Sub>
        ensures taken { result ≡ sub_of k self.old }
        ensures others { self.new ≡ without_sub k self.old }
    {
        self.subs.remove(&k)
    }

    /// The least number of a subscriber that is due at a moment. None comes exactly where nobody is due.
    pub fn due(&self, now: u64) -> Option<u64>
        ensures due { result ≡ due_of now self.now }
        ensures none { IfNone result (NoneDue now self.now) }
        ensures least { IfSome result (λ k. IsLeastDue now k self.now) }
    {
        for (k, sub) in self.subs.iter() {
            if sub.is_due(now) {
                return Some(*k);
            }
        }
        None
    }
}

//! The members of a channel.
ghost use Rattle.std.specs.Prelude.{◌≡◌, [], fold, length, IfOk, OnErr, OnOk};
ghost use Rattle.nc_owner.specs.Members.{has_member, with_member, without_member};
ghost use Rattle.nc_owner.specs.Remove.{numbers_of, with_worker};

use crate::marks::mark;
use crate::member::Member;
use nc_types::{List, NoMemory};
use std::alloc::Global;
use std::collections::BTreeSet;
use std::marker::Model;

/// Members, each once, which contracts see as their list in ascending order.
///
/// One member more or one fewer takes the logarithm of their number.
#[derive(Drop)]
pub struct Members {
    set: BTreeSet<Member>,
}

impl Model for Members {
    ghost use Rattle.std.specs.Prelude.{List as Items};
    ghost use Rattle.nc_owner.specs.declared.member.Member.{Member as MemberAt};

    ghost Value = { Items MemberAt };

    ghost view = { λ m. m.set.keys };
}

impl Members {
    /// No members, which take their memory from `alloc`.
    pub fn new(alloc: Global) -> Members
        ensures { result ≡ [] }
    {
        Members {
            set: BTreeSet::new(alloc),
        }
    }

    /// How many members there are.
    pub fn len(&self) -> usize
        ensures { result ≡ length self.now }
    {
        self.set.len()
    }

    /// Whether a subscriber is a member.
    pub fn contains(&self, member: &Member) -> bool
        ensures { result ≡ has_member member.now self.now }
    {
        self.set.contains(member)
    }

    /// A subscriber becomes a member, if it is none yet. Without memory nothing changes.
    pub fn insert(&mut self, member: Member) -> Result<(), NoMemory>
        ensures err { OnErr result (self.new ≡ self.old) }
        ensures ok { OnOk result (self.new ≡ with_member member self.old) }
    {
        self.set.insert(member)?;
        Ok(())
    }

    /// A subscriber is a member no longer, if it was one.
    pub fn remove(&mut self, member: &Member)
        ensures { self.new ≡ without_member member.now self.old }
    {
        self.set.remove(member);
    }

    /// Some workers in ascending order, with those that have a member here.
    pub(crate) fn with_workers(
        &self,
        alloc: Global,
        workers: List<u8>,
    ) -> Result<List<u8>, NoMemory>
        ensures { IfOk result (λ all. all ≡ fold with_worker workers self.now) }
    {
        let mut all = workers;
        for member in &self.set {
            mark(alloc, &mut all, member.from)?;
        }
        Ok(all)
    }

    /// The numbers of a worker's members, in ascending order.
    pub(crate) fn numbers_of(&self, alloc: Global, worker: u8) -> Result<List<u64>, NoMemory>
        ensures { IfOk result (λ numbers. numbers ≡ numbers_of worker self.now) }
    {
        let mut numbers = List::new(alloc);
        for member in &self.set {
            if member.from == worker {
                numbers.push(member.k)?;
            }
        }
        Ok(numbers)
    }
}

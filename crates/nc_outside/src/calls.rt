//! The calls of an object in memory: how many were made, which of them are to fail, and how many failed.
ghost use Rattle.std.specs.Prelude.{◌≡◌, ◌≤◌};

use crate::source::Failed;
use nc_types::List;

/// Counts the calls of an object, and those that failed.
#[derive(Drop)]
pub struct Calls {
    failing: List<u64>,
    made: u64,
    faults: u64,
}

impl Calls {
    ghost use Rattle.nc_outside.specs.Memory.{no_calls, is_failing, after_call, after_fault};

    /// None made yet. Those with the numbers `failing`, counted from 0, are to fail.
    pub fn new(failing: List<u64>) -> Calls
        ensures { result ≡ no_calls failing }
    {
        Calls {
            failing,
            made: 0,
            faults: 0,
        }
    }

    /// Whether the next call is to fail.
    pub fn is_failing(&self) -> bool
        ensures { result ≡ is_failing self.now }
    {
        self.failing.as_slice().contains(&self.made)
    }

    /// Counts a call that did its work.
    pub fn succeed(&mut self)
        ensures { self.new ≡ after_call self.old }
    {
        self.made = self.made.saturating_add(1);
    }

    /// Counts a call that failed.
    pub fn fail(&mut self) -> Failed
        ensures state { self.new ≡ after_fault self.old }
        ensures counted { self.old.faults ≤ self.new.faults }
    {
        self.made = self.made.saturating_add(1);
        self.faults = self.faults.saturating_add(1);
        Failed
    }
}

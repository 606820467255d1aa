//! A sink in memory, whose writes fail as they are told.
ghost use Rattle.std.specs.Prelude.{◌≡◌, ◌≤◌, ◌<◌, ◌⊎◌, [], ◌++◌, false, take, length, IfOk, OnOk, OnErr, MatchResult};
ghost use Rattle.nc_outside.specs.Fault.{HasRisen};

use crate::calls::Calls;
use crate::sink::Sink;
use crate::source::Failed;
use nc_types::List;
use std::alloc::Global;

/// Takes whole pieces and keeps them.
#[derive(Drop)]
pub struct MemSink {
    bytes: Vec<u8>,
    calls: Calls,
    lacks: bool,
}

impl MemSink {
    ghost use Rattle.nc_outside.specs.Memory.{bytes_taken, writes, lacks_memory, no_calls};

    /// A sink that took nothing yet. The writes with the numbers `fails`, counted from 0, fail.
    pub fn new(alloc: Global, fails: List<u64>) -> MemSink
        ensures taken { bytes_taken result ≡ [] }
        ensures unused { writes result ≡ no_calls fails }
        ensures whole { lacks_memory result ≡ false }
    {
        MemSink {
            bytes: Vec::new(alloc),
            calls: Calls::new(fails),
            lacks: false,
        }
    }

    /// The bytes taken, in their order.
    pub fn bytes(&self) -> &[u8]
        ensures { result.now ≡ bytes_taken self.now }
    {
        &self.bytes
    }

    /// Whether a write failed that wasn't to fail: there was no memory for its piece.
    pub fn lacks_memory(&self) -> bool
        ensures { result ≡ lacks_memory self.now }
    {
        self.lacks
    }
}

impl Sink for MemSink {
    ghost use Rattle.nc_outside.specs.Memory.{bytes_taken, writes, is_failing, after_call, after_fault, lacks_memory, HasReason};

    ghost taken = { λ s. bytes_taken s };

    ghost faults = { λ s. s.calls.faults };

    ghost refusals = { λ _. 0 };

    /// Fails where its number is among those that are to fail, and else only where there is no memory, which it keeps.
    fn write(&mut self, piece: &[u8]) -> Result<usize, Failed>
        ensures named { IfOk result (λ _. is_failing (writes self.old) ≡ false) }
        ensures reason { OnErr result (HasReason self.old self.new) }
        ensures enough { OnOk result (lacks_memory self.new ≡ lacks_memory self.old) }
        ensures whole { IfOk result (λ n. n ≡ length piece.now) }
        ensures added { OnOk result (bytes_taken self.new ≡ bytes_taken self.old ++ piece.now) }
        ensures unmoved { OnErr result (bytes_taken self.new ≡ bytes_taken self.old) }
        ensures next { MatchResult result
            (λ _. writes self.new ≡ after_call (writes self.old))
            (λ _. writes self.new ≡ after_fault (writes self.old)) }
        ensures counted { (writes self.old).faults ≤ (writes self.new).faults }
    {
        if self.calls.is_failing() {
            return Err(self.calls.fail());
        }
        if self.bytes.extend_from_slice(piece).is_err() {
            self.lacks = true;
            return Err(self.calls.fail());
        }
        self.calls.succeed();
        Ok(piece.len())
    }
}

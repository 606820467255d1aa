//! A framer that fails after some calls.
ghost use Rattle.std.specs.Prelude.{◌≡◌, ◌≤◌, ◌<◌, [], true, false, IfOk, IfErr, OnOk, OnErr};
ghost use Rattle.nc_ws.specs.Count.{HasRisen};
ghost use Rattle.nc_ws.specs.Items.{ends_closed, ClosedIsLast, is_failure};
ghost use Rattle.nc_ws.specs.declared.framer.FrameFault.TheVariants.{Failed};

use crate::framer::{FrameFault, FrameIn, Framer};
use nc_types::{List, NoMemory};
use std::alloc::Global;

/// Gives empty lists at its first `N` calls, and fails at each later one.
#[derive(Drop)]
pub struct LimitedFramer<const N: u64> {
    alloc: Global,
    faults: u64,
    calls: u64,
    closes: u64,
}

impl<const N: u64> Framer for LimitedFramer<N> {
    ghost faults = { λ framer. framer.faults };

    ghost calls = { λ framer. framer.calls };

    ghost closes = { λ framer. framer.closes };

    fn begin(alloc: Global, _conn: u32) -> Result<Self, NoMemory> {
        Ok(LimitedFramer {
            alloc,
            faults: 0,
            calls: 0,
            closes: 0,
        })
    }

    /// Fails exactly where `N` calls were made before.
    fn take(&mut self, _piece: &[u8]) -> Result<List<FrameIn>, FrameFault>
        ensures within { OnOk result (self.old.calls < N) }
        ensures empty { IfOk result (λ list. list ≡ []) }
        ensures past { OnErr result (N ≤ self.old.calls) }
        ensures fault { IfErr result (λ fault. fault ≡ Failed) }
        ensures last { IfOk result (λ list. ClosedIsLast list) }
        ensures closed { IfOk result (λ list. ends_closed list ≡ true → HasRisen self.old.closes self.new.closes) }
        ensures not_closed { IfOk result (λ list. ends_closed list ≡ false → self.new.closes ≡ self.old.closes) }
        ensures no_list { OnErr result (self.new.closes ≡ self.old.closes) }
        ensures failed { IfErr result (λ fault. is_failure fault ≡ true → HasRisen self.old.faults self.new.faults) }
        ensures not_failed { IfErr result (λ fault. is_failure fault ≡ false → self.new.faults ≡ self.old.faults) }
        ensures no_fault { OnOk result (self.new.faults ≡ self.old.faults) }
        ensures called { HasRisen self.old.calls self.new.calls }
        ensures faults_counted { self.old.faults ≤ self.new.faults }
        ensures calls_counted { self.old.calls ≤ self.new.calls }
        ensures closes_counted { self.old.closes ≤ self.new.closes }
    {
        let is_within = self.calls < N;
        self.calls = self.calls.saturating_add(1);
        if is_within {
            return Ok(List::new(self.alloc));
        }
        self.faults = self.faults.saturating_add(1);
        Err(FrameFault::Failed)
    }
}

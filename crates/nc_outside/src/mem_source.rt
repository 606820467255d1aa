//! A source in memory, whose reads fail as they are told.
ghost use Rattle.std.specs.Prelude.{◌≡◌, ◌≤◌, ◌<◌, [], ◌∷◌, Some, true, false, take, length, min, IfOk, OnErr, MatchResult};
ghost use Rattle.nc_outside.specs.Fault.{HasRisen};
ghost use Rattle.nc_outside.specs.Flow.{MovesTo};

use crate::calls::Calls;
use crate::source::{Failed, Source};
use crate::unread::Unread;
use nc_types::{Bytes, List};

/// Gives its bytes, at each read as many as the room takes.
#[derive(Drop)]
pub struct MemSource {
    unread: Unread,
    calls: Calls,
}

impl MemSource {
    ghost use Rattle.nc_outside.specs.Memory.{bytes_left, given_by, reads, no_calls};

    /// A source of these bytes. The reads with the numbers `fails`, counted from 0, fail.
    pub fn new(bytes: Bytes, fails: List<u64>) -> MemSource
        ensures left { bytes_left result ≡ bytes }
        ensures given { given_by result ≡ [] }
        ensures unused { reads result ≡ no_calls fails }
    {
        MemSource {
            unread: Unread::new(bytes),
            calls: Calls::new(fails),
        }
    }
}

impl Source for MemSource {
    ghost use Rattle.nc_outside.specs.Memory.{bytes_left, given_by, reads, is_failing, after_call, after_fault};

    ghost left = { λ s. Some (bytes_left s) };

    ghost given = { λ s. given_by s };

    ghost faults = { λ s. s.calls.faults };

    /// Fails exactly where its number is among those that are to fail.
    fn read(&mut self, room: &mut [u8]) -> Result<usize, Failed>
        requires { 0 < length room.old }
        ensures named { MatchResult result (λ _. is_failing (reads self.old) ≡ false) (λ _. is_failing (reads self.old) ≡ true) }
        ensures many { IfOk result (λ n. n ≡ min (length room.old) (length (bytes_left self.old))) }
        ensures given { IfOk result (λ n. given_by self.new ≡ take n room.new ∷ given_by self.old) }
        ensures ungiven { OnErr result (given_by self.new ≡ given_by self.old) }
        ensures moved { IfOk result (λ n. MovesTo (bytes_left self.old) (Some (bytes_left self.new)) room.new n) }
        ensures unmoved { OnErr result (bytes_left self.new ≡ bytes_left self.old) }
        ensures next { MatchResult result
            (λ _. reads self.new ≡ after_call (reads self.old))
            (λ _. reads self.new ≡ after_fault (reads self.old)) }
        ensures counted { (reads self.old).faults ≤ (reads self.new).faults }
    {
        if self.calls.is_failing() {
            return Err(self.calls.fail());
        }
        self.calls.succeed();
        Ok(self.unread.fill(room))
    }
}

//! A source and a sink that never fail.
ghost use Rattle.std.specs.Prelude.{◌≡◌, ◌<◌, [], ◌∷◌, ◌++◌, Some, Ok, IsOk, IfOk, take, length, min};
ghost use Rattle.nc_outside.specs.Flow.{MovesTo};

use crate::sink::Sink;
use crate::source::{Failed, Source};
use crate::trace::Trace;
use crate::unread::Unread;
use nc_types::Bytes;

/// Gives its bytes, at each read as many as the room takes, and never fails.
#[derive(Drop)]
pub struct SureSource {
    unread: Unread,
}

impl SureSource {
    ghost use Rattle.nc_outside.specs.Memory.{sure_left, sure_given};

    /// A source of these bytes.
    pub fn new(bytes: Bytes) -> SureSource
        ensures left { sure_left result ≡ bytes }
        ensures given { sure_given result ≡ [] }
    {
        SureSource {
            unread: Unread::new(bytes),
        }
    }
}

impl Source for SureSource {
    ghost use Rattle.nc_outside.specs.Memory.{sure_left, sure_given};

    ghost left = { λ s. Some (sure_left s) };

    ghost given = { λ s. sure_given s };

    ghost faults = { λ _. 0 };

    fn read(&mut self, room: &mut [u8]) -> Result<usize, Failed>
        requires { 0 < length room.old }
        ensures sure { IsOk result }
        ensures many { IfOk result (λ n. n ≡ min (length room.old) (length (sure_left self.old))) }
        ensures given { IfOk result (λ n. sure_given self.new ≡ take n room.new ∷ sure_given self.old) }
        ensures moved { IfOk result (λ n. MovesTo (sure_left self.old) (Some (sure_left self.new)) room.new n) }
    {
        Ok(self.unread.fill(room))
    }
}

/// Takes whole pieces, keeps none of them, and never fails.
#[derive(Drop)]
pub struct SureSink {
    trace: Trace,
}

impl SureSink {
    ghost use Rattle.nc_outside.specs.Memory.{sure_taken};

    /// A sink that took nothing yet.
    pub fn new() -> SureSink
        ensures { sure_taken result ≡ [] }
    {
        SureSink {
            trace: Trace::new(),
        }
    }
}

impl Sink for SureSink {
    ghost use Rattle.nc_outside.specs.Memory.{sure_taken};

    ghost taken = { λ s. sure_taken s };

    ghost faults = { λ _. 0 };

    ghost refusals = { λ _. 0 };

    fn write(&mut self, piece: &[u8]) -> Result<usize, Failed>
        ensures whole { result ≡ Ok (length piece.now) }
        ensures added { IfOk result (λ n. sure_taken self.new ≡ sure_taken self.old ++ take n piece.now) }
    {
        self.trace.note(piece);
        Ok(piece.len())
    }
}

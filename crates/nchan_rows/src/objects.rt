//! Sources and sinks that rows name.
ghost use Rattle.std.specs.Prelude.{None, Some, []};

use nc_outside::{Failed, MemSource, Sink, Source, Trace};

/// Gives at most 16 bytes at each read.
#[derive(Drop)]
pub struct Sips {
    /// The source that it reads.
    pub source: MemSource,
}

impl Source for Sips {
    ghost use Rattle.nc_outside.specs.Memory.{bytes_left, given_by, reads};

    ghost left = { λ s. Some (bytes_left s.source) };

    ghost given = { λ s. given_by s.source };

    ghost faults = { λ s. (reads s.source).faults };

    fn read(&mut self, room: &mut [u8]) -> Result<usize, Failed> {
        let most = room.len().min(16);
        self.source.read(&mut room[..most])
    }
}

/// Fills each room, and has no end.
#[derive(Drop)]
pub struct Endless {
    trace: Trace,
}

impl Endless {
    /// One that gave nothing yet.
    pub fn new() -> Endless {
        Endless {
            trace: Trace::new(),
        }
    }
}

impl Source for Endless {
    ghost left = { λ _. None };

    ghost given = { λ s. s.trace.pieces };

    ghost faults = { λ _. 0 };

    fn read(&mut self, room: &mut [u8]) -> Result<usize, Failed> {
        self.trace.note(room);
        Ok(room.len())
    }
}

/// Takes nothing, and counts that.
#[derive(Drop)]
pub struct Full {
    /// How often a piece was refused.
    pub refusals: u64,
}

impl Sink for Full {
    ghost taken = { λ _. [] };

    ghost faults = { λ _. 0 };

    ghost refusals = { λ s. s.refusals };

    fn write(&mut self, piece: &[u8]) -> Result<usize, Failed> {
        if !piece.is_empty() {
            self.refusals = self.refusals.saturating_add(1);
        }
        Ok(0)
    }
}

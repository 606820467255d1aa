//! The real source and sink: any reader and any writer of std, with counts of their faults and a trace of what passed.
//!
//! What they tell is what they gave and took in this run. Nothing is proved of what a stream holds.
ghost use Rattle.std.specs.Prelude.{None, ◌≡◌, ◌≤◌, ◌<◌, ◌⊎◌, ◌∷◌, ◌++◌, [], length, take, IfOk, OnErr};
ghost use Rattle.std.specs.Io.KnownBytes.{ReadConsumes, WriteAppends};
ghost use Rattle.nc_outside.specs.Fault.{HasRisen};

use nc_outside::{Failed, Sink, Source, Trace};
use std::io::{Read, Write};

/// A source that reads from a reader, and counts its errors.
#[derive(Drop)]
pub struct StdSource<R: Read + Drop> {
    reader: R,
    faults: u64,
    trace: Trace,
}

impl<R: Read + Drop> StdSource<R> {
    ghost use Rattle.nchan.specs.Standard.{given_by};

    /// A source over a reader, which gave nothing so far.
    pub fn new(reader: R) -> StdSource<R>
        ensures faults { result.faults ≡ 0 }
        ensures given { given_by result ≡ [] }
    {
        StdSource {
            reader,
            faults: 0,
            trace: Trace::new(),
        }
    }
}

impl<R: Read + Drop> Source for StdSource<R> {
    ghost use Rattle.nchan.specs.Standard.{given_by};

    ghost left = { λ _. None };

    ghost given = { λ s. given_by s };

    ghost faults = { λ s. s.faults };

    /// What it gives is what its reader gave, where the reader tells.
    fn read(&mut self, room: &mut [u8]) -> Result<usize, Failed>
        requires { 0 < length room.old }
        ensures within { IfOk result (λ n. n ≤ length room.old) }
        ensures given { IfOk result (λ n. given_by self.new ≡ take n room.new ∷ given_by self.old) }
        ensures ungiven { OnErr result (given_by self.new ≡ given_by self.old) }
        ensures no_fault { IfOk result (λ _. self.new.faults ≡ self.old.faults) }
        ensures failed { OnErr result (HasRisen self.old.faults self.new.faults) }
        ensures counted { self.old.faults ≤ self.new.faults }
        ensures faithful { ReadConsumes (R.remaining self.old.reader) (R.remaining self.new.reader) result room.new }
    {
        match self.reader.read(room) {
            Ok(n) => {
                self.trace.note(&room[..n]);
                Ok(n)
            }
            Err(_) => {
                self.faults = self.faults.saturating_add(1);
                Err(Failed)
            }
        }
    }
}

/// A sink that writes to a writer, and counts its errors and the writes that took nothing.
#[derive(Drop)]
pub struct StdSink<W: Write + Drop> {
    writer: W,
    faults: u64,
    refusals: u64,
    trace: Trace,
}

impl<W: Write + Drop> StdSink<W> {
    ghost use Rattle.nchan.specs.Standard.{taken_by};

    /// A sink over a writer, which took nothing so far.
    pub fn new(writer: W) -> StdSink<W>
        ensures faults { result.faults ≡ 0 }
        ensures refusals { result.refusals ≡ 0 }
        ensures taken { taken_by result ≡ [] }
    {
        StdSink {
            writer,
            faults: 0,
            refusals: 0,
            trace: Trace::new(),
        }
    }
}

impl<W: Write + Drop> Sink for StdSink<W> {
    ghost use Rattle.nchan.specs.Standard.{taken_by};

    ghost taken = { λ s. taken_by s };

    ghost faults = { λ s. s.faults };

    ghost refusals = { λ s. s.refusals };

    /// What it takes is what its writer took, where the writer tells.
    fn write(&mut self, piece: &[u8]) -> Result<usize, Failed>
        ensures within { IfOk result (λ n. n ≤ length piece.now) }
        ensures added { IfOk result (λ n. taken_by self.new ≡ taken_by self.old ++ take n piece.now) }
        ensures nothing { IfOk result (λ n. n ≡ 0 → 0 < length piece.now → HasRisen self.old.refusals self.new.refusals) }
        ensures something { IfOk result (λ n. (0 < n) ⊎ (length piece.now ≡ 0) → self.new.refusals ≡ self.old.refusals) }
        ensures no_fault { IfOk result (λ _. self.new.faults ≡ self.old.faults) }
        ensures failed { OnErr result (HasRisen self.old.faults self.new.faults) }
        ensures unmoved { OnErr result (taken_by self.new ≡ taken_by self.old) }
        ensures unrefused { OnErr result (self.new.refusals ≡ self.old.refusals) }
        ensures counted { self.old.faults ≤ self.new.faults }
        ensures refusals_counted { self.old.refusals ≤ self.new.refusals }
        ensures faithful { WriteAppends (W.contents self.old.writer) (W.contents self.new.writer) result piece.now }
    {
        match self.writer.write(piece) {
            Ok(n) => {
                if n == 0 && !piece.is_empty() {
                    self.refusals = self.refusals.saturating_add(1);
                }
                self.trace.note(&piece[..n]);
                Ok(n)
            }
            Err(_) => {
                self.faults = self.faults.saturating_add(1);
                Err(Failed)
            }
        }
    }
}

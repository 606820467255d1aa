//! A pipe in memory: a framer puts bytes in at one end, and its socket reads them at the other.
ghost use Rattle.std.specs.Prelude.{◌≡◌, ◌≤◌, ◌++◌, [], Some, drop, length, IsTrue, IfOk};

use nc_types::NoMemory;
use std::alloc::Global;
use std::collections::VecDeque;
use std::io;
use std::io::{ErrorKind, Read, Write};

/// Bytes that aren't read yet, and bytes that the socket wrote.
#[derive(Drop)]
pub struct Pipe {
    pub bytes: VecDeque<u8>,
    pub out: Vec<u8>,
}

impl Read for Pipe {
    ghost remaining = { λ pipe. Some pipe.bytes.items };

    /// A pipe without bytes would block.
    fn read(&mut self, buf: &mut [u8]) -> io::Result<usize> {
        if self.bytes.is_empty() {
            return Err(io::Error::from(ErrorKind::WouldBlock));
        }
        self.bytes.read(buf)
    }
}

impl Write for Pipe {
    ghost contents = { λ pipe. Some pipe.out.items };

    /// Fails only for want of memory.
    fn write(&mut self, buf: &[u8]) -> io::Result<usize> {
        match self.out.extend_from_slice(buf) {
            Ok(()) => Ok(buf.len()),
            Err(_) => Err(io::Error::from(ErrorKind::OutOfMemory)),
        }
    }

    fn flush(&mut self) -> io::Result<()> {
        Ok(())
    }
}

fn holds(bytes: &VecDeque<u8>, expected: &[u8]) -> bool
    ensures { IsTrue result → bytes.now.items ≡ expected.now }
{
    bytes.iter().eq(expected.iter())
}

/// Whether a pipe holds these bytes, and nothing is written.
pub fn is_fed(pipe: &Pipe, expected: &[u8]) -> bool
    ensures bytes { IsTrue result → pipe.now.bytes.items ≡ expected.now }
    ensures out { IsTrue result → pipe.now.out.items ≡ [] }
{
    match pipe.out.as_slice() {
        [] => holds(&pipe.bytes, expected),
        _ => false,
    }
}

/// The bytes of a queue, and some more behind them.
pub fn joined(alloc: Global, bytes: &VecDeque<u8>, piece: &[u8]) -> Result<Vec<u8>, NoMemory>
    ensures { IfOk result (λ all. all.items ≡ bytes.now.items ++ piece.now) }
{
    let (front, back) = bytes.as_slices();
    let mut all = Vec::from_slice(alloc, front)?;
    all.extend_from_slice(back)?;
    all.extend_from_slice(piece)?;
    Ok(all)
}

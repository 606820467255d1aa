//! The lines of a journal are taken one after the other, each as the work says.
//!
//! Below stands `copy`; `main` reads the journal and tells how it ended.
ghost use Rattle.std.specs.Prelude.{◌≡◌, ℕ, ◌<◌, ◌≤◌, ◌==◌, length, position, IfSome};
ghost use Rattle.std.specs.List.{position_or_len, before_first, after_first};
ghost use Rattle.nc_grammar.specs.declared.fault.Unread.TheVariants.{Bad, NoMemory};
ghost use Rattle.journal_bench.specs.declared.walk.Stop.TheVariants.{Bad as StopBad, NoMemory as StopNoMemory};

use crate::copy::{copy_line, read_line};
use nc_journal_read::Unread;
use std::alloc::Global;
use std::io;
use std::io::Write;

/// How many bytes are written at once, or a line more.
const PIECE: usize = 65_536;

/// What is done with each line.
#[derive(Clone, Copy, Debug, PartialEq, Eq)]
pub enum Work {
    /// It is cut off and counted.
    Cut,
    /// It is read too.
    Read,
    /// It is read, and what was read is written.
    Copy,
}

/// How many lines there were, and how many bytes without their LFs. Both stop at the greatest u64.
#[derive(Clone, Copy, Debug, PartialEq, Eq)]
pub struct Counts {
    pub lines: u64,
    pub bytes: u64,
}

/// Why a journal isn't taken to its end.
#[derive(Clone, Copy, Debug, PartialEq, Eq)]
pub enum Stop {
    /// No event has this line. Lines are counted from 1; `at` is the length of its longest prefix that begins some event's line.
    Bad { line: u64, at: usize },
    /// Writing failed.
    Output,
    /// Memory ran out.
    NoMemory,
}

impl From<io::Error> for Stop {
    fn from(_: io::Error) -> Stop {
        Stop::Output
    }
}

/// The place of the first LF.
fn place_of_lf(text: &[u8]) -> Option<usize>
    ensures place { result ≡ position (λ b. b == 10) text.now }
    ensures within { IfSome result (λ at. at < length text.now) }
{
    text.iter().position(|b| *b == b'\n')
}

/// How many bytes the first line of a text has.
fn first_line_len(text: &[u8]) -> usize
    ensures len { result ≡ position_or_len (λ b. b == 10) text.now }
    ensures within { result ≤ length text.now }
{
    place_of_lf(text).unwrap_or(text.len())
}

/// The first line of a text, without its LF. The last line may end with the text.
fn first_line(text: &[u8]) -> &[u8]
    ensures { result.now ≡ before_first (λ b. b == 10) text.now }
{
    &text[..first_line_len(text)]
}

/// What stands behind the first line of a text and its LF.
fn rest_after(text: &[u8]) -> &[u8]
    ensures rest { result.now ≡ after_first (λ b. b == 10) text.now }
    ensures shorter { 0 < length text.now → length result.now < length text.now }
{
    let len = first_line_len(text);
    &text[(len + 1).min(text.len())..]
}

fn take_line(alloc: Global, work: Work, line: &[u8], out: &mut Vec<u8>) -> Result<(), Unread> {
    match work {
        Work::Cut => Ok(()),
        Work::Read => read_line(alloc, line),
        Work::Copy => copy_line(alloc, line, out),
    }
}

/// Why a journal isn't taken past a line.
fn stop_at(line: u64, fault: Unread) -> Stop
    ensures bad { (at : ℕ) → fault ≡ Bad at → result ≡ StopBad line at }
    ensures memory { fault ≡ NoMemory → result ≡ StopNoMemory }
{
    match fault {
        Unread::Bad { place } => Stop::Bad { line, at: place },
        Unread::NoMemory => Stop::NoMemory,
    }
}

/// Writes a text and empties it, where it has a whole piece.
fn write_piece<W: Write>(out: &mut Vec<u8>, sink: &mut W) -> io::Result<()> {
    if out.len() >= PIECE {
        sink.write_all(out)?;
        out.clear();
    }
    Ok(())
}

/// Takes the lines of a journal up to the first that no event has. What is copied and not yet written stands in `out` then.
pub fn walk<W: Write>(
    alloc: Global,
    work: Work,
    journal: &[u8],
    out: &mut Vec<u8>,
    sink: &mut W,
) -> Result<Counts, Stop> {
    let mut counts = Counts { lines: 0, bytes: 0 };
    let mut rest = journal;
    while rest.len() > 0 {
        let line = first_line(rest);
        counts.lines = counts.lines.saturating_add(1);
        counts.bytes = counts.bytes.saturating_add(line.len() as u64);
        match take_line(alloc, work, line, out) {
            Ok(()) => write_piece(out, sink)?,
            Err(fault) => return Err(stop_at(counts.lines, fault)),
        }
        rest = rest_after(rest);
    }
    Ok(counts)
}

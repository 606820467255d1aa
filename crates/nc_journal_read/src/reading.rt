//! The event of a line.
//!
//! An event's word tells its kind, and the kind its fields. The words stand in the order of the events in `event`.
ghost use Rattle.std.specs.Prelude.{◌≡◌, ◌∷◌, ◌<◌, IfOk, IfErr};
ghost use Rattle.nc_grammar.specs.Gives.{Gives};
ghost use Rattle.nc_grammar.specs.Label.{word_at};
ghost use Rattle.nc_grammar.specs.Rows.{nth_at, words_of};
ghost use Rattle.nc_grammar.specs.Whole.{IsLine};
ghost use Rattle.nc_journal_read.specs.Fit.{EventFits};
ghost use Rattle.nc_journal.specs.EventLine.{line as line_text};
ghost use Rattle.nc_journal_read.specs.BadLine.{IsBadLine};
ghost use Rattle.nc_journal_read.specs.EventTable.{parts, clock_row, event_rows, event_at};
ghost use Rattle.nc_journal.specs.declared.event.Event.{Event as EventOf};

use crate::connection_reading::{answered, asked, got, opened, replied, shut, wrote};
use crate::owner_reading::{edged, freed, granted, joined, left, looked, parted, raised, removed};
use crate::stored_reading::stored;
use crate::subscriber_reading::{ended, sent, started, subscribed};
use crate::worker_reading::{clock, made, pending, released, took};
use nc_grammar::{Fault, Reader, Unread};
use nc_journal::Event;
use std::alloc::Global;

static KINDS: [&[u8]; 27] = [
    b"clock",
    b"opened",
    b"got",
    b"asked",
    b"answered",
    b"subscribed",
    b"started",
    b"joined",
    b"parted",
    b"raised",
    b"stored",
    b"left",
    b"looked",
    b"edged",
    b"granted",
    b"released",
    b"freed",
    b"removed",
    b"sent",
    b"ended",
    b"replied",
    b"wrote",
    b"shut",
    b"made",
    b"took",
    b"pending",
    b"quiet",
];

/// The place of an event's word.
fn kind(reader: &mut Reader<'_>) -> Result<usize, Fault>
    ensures read { Gives reader.new result (word_at (words_of parts (clock_row ∷ event_rows)) reader.old) }
    ensures within { IfOk result (λ kind. kind < 27) }
{
    reader.one_of(&KINDS)
}

fn event_of_kind(alloc: Global, reader: &mut Reader<'_>, kind: usize) -> Result<Event, Fault>
    requires { kind < 27 }
    ensures { Gives reader.new result (nth_at parts clock_row event_rows kind reader.old) }
{
    match kind {
        0 => clock(reader),
        1 => opened(reader),
        2 => got(alloc, reader),
        3 => asked(alloc, reader),
        4 => answered(reader),
        5 => subscribed(alloc, reader),
        6 => started(alloc, reader),
        7 => joined(alloc, reader),
        8 => parted(alloc, reader),
        9 => raised(reader),
        10 => stored(alloc, reader),
        11 => left(alloc, reader),
        12 => looked(alloc, reader),
        13 => edged(alloc, reader),
        14 => granted(reader),
        15 => released(reader),
        16 => freed(reader),
        17 => removed(alloc, reader),
        18 => sent(alloc, reader),
        19 => ended(reader),
        20 => replied(alloc, reader),
        21 => wrote(alloc, reader),
        22 => shut(reader),
        23 => made(alloc, reader),
        24 => took(reader),
        25 => pending(reader),
        _ => Ok(Event::Quiet),
    }
}

fn event(alloc: Global, reader: &mut Reader<'_>) -> Result<Event, Fault>
    ensures { Gives reader.new result (event_at reader.old) }
{
    let kind = kind(reader)?;
    event_of_kind(alloc, reader, kind)
}

/// Reads a line of a journal back, without its end: the event that has this line (docs/JOURNAL.md).
///
/// `Bad` comes exactly where no event has it.
pub fn event_of(alloc: Global, line: &[u8]) -> Result<Event, Unread>
    // What is read has this line.
    ensures found { IfOk result (λ e. IsLine EventFits line_text e line.now) }
    // Else no event has it, and the place is the length of its longest prefix that begins some event's line.
    ensures bad { IfErr result (λ fault. IsBadLine line.now fault) }
{
    let mut reader = Reader::new(line);
    let outcome = event(alloc, &mut reader);
    reader.end(line, outcome)
}

/// No two events have the same line.
pub fn one_line()
    ensures { (a b : EventOf) → EventFits a → EventFits b → line_text a ≡ line_text b → a ≡ b }
{}

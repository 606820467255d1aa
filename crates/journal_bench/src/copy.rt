//! A line of a journal is read, and what was read is written again.
//!
//! Below stand `nc_journal` and `nc_journal_read`; `walk` takes the lines of a journal one after the other.
ghost use Rattle.std.specs.Prelude.{◌≡◌, ◌∷◌, ◌++◌, [], IfErr, OnOk};
ghost use Rattle.nc_grammar.specs.Whole.{IsLine};
ghost use Rattle.nc_journal_read.specs.BadLine.{IsBadLine};
ghost use Rattle.nc_journal_read.specs.Fit.{EventFits};
ghost use Rattle.nc_journal.specs.EventLine.{line as line_text};
ghost use Rattle.nc_journal.specs.declared.event.Event.{Event as EventOf};

use nc_journal::{Event, line_of};
use nc_journal_read::{Unread, event_of};
use nc_types::NoMemory;
use std::alloc::Global;

/// Puts the line of an event and its LF behind a text.
fn put_line(alloc: Global, event: &Event, out: &mut Vec<u8>) -> Result<(), NoMemory>
    ensures { OnOk result (out.new.items ≡ out.old.items ++ line_text event.now ++ 10 ∷ []) }
{
    let text = line_of(alloc, event)?;
    out.extend_from_slice(text.as_slice())?;
    out.push(b'\n')?;
    Ok(())
}

/// Reads a line, without its LF, and drops what was read.
///
/// Bad comes exactly where no event has it, with the length of its longest prefix that begins some event's line.
pub fn read_line(alloc: Global, line: &[u8]) -> Result<(), Unread>
    ensures found { OnOk result ((e : EventOf) × IsLine EventFits line_text e line.now) }
    ensures bad { IfErr result (λ fault. IsBadLine line.now fault) }
{
    event_of(alloc, line)?;
    Ok(())
}

/// Reads a line, without its LF, and puts the line of what was read and LF behind a text: the very line that was read.
///
/// Bad comes exactly where no event has it, with the length of its longest prefix that begins some event's line.
pub fn copy_line(alloc: Global, line: &[u8], out: &mut Vec<u8>) -> Result<(), Unread>
    ensures copied { OnOk result (out.new.items ≡ out.old.items ++ line.now ++ 10 ∷ []) }
    ensures found { OnOk result ((e : EventOf) × IsLine EventFits line_text e line.now) }
    ensures bad { IfErr result (λ fault. IsBadLine line.now fault) }
{
    let event = event_of(alloc, line)?;
    match put_line(alloc, &event, out) {
        Ok(()) => Ok(()),
        Err(NoMemory) => Err(Unread::NoMemory),
    }
}

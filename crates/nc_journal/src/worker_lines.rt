//! The lines of clocks, of the holds that a worker gives back, of alerts, and of the end of a step.
ghost use Rattle.std.specs.Prelude.{◌≡◌, IfOk};
ghost use Rattle.nc_journal.specs.EventLine.{line};

use crate::alert::AlertLine;
use crate::alert_lines::alert_text;
use crate::event::Event;
use crate::word::AlertKind;
use crate::words::kind_word;
use nc_journal_field::{put, put_number, put_word, room};
use nc_types::NoMemory;
use std::alloc::Global;

pub(crate) fn clock_line(alloc: Global, w: u64, t: u64) -> Result<Vec<u8>, NoMemory>
    ensures { IfOk result (λ text. text.items ≡ line (Event.Clock w t)) }
{
    let mut out = room(alloc)?;
    put_number(&mut out, b"clock w=", w)?;
    put_number(&mut out, b" t=", t)?;
    Ok(out)
}

pub(crate) fn released_line(
    alloc: Global,
    w: u64,
    owner: u64,
    g: u64,
    slot: u64,
) -> Result<Vec<u8>, NoMemory>
    ensures { IfOk result (λ text. text.items ≡ line (Event.Released w owner g slot)) }
{
    let mut out = room(alloc)?;
    put_number(&mut out, b"released w=", w)?;
    put_number(&mut out, b" owner=", owner)?;
    put_number(&mut out, b" g=", g)?;
    put_number(&mut out, b" slot=", slot)?;
    Ok(out)
}

pub(crate) fn made_line(
    alloc: Global,
    w: u64,
    to: u64,
    n: u64,
    a: &AlertLine,
) -> Result<Vec<u8>, NoMemory>
    ensures { IfOk result (λ text. text.items ≡ line (Event.Made w to n a.now)) }
{
    let mut out = room(alloc)?;
    put_number(&mut out, b"made w=", w)?;
    put_number(&mut out, b" to=", to)?;
    put_number(&mut out, b" n=", n)?;
    put_word(&mut out, b" a=", &alert_text(alloc, a)?)?;
    Ok(out)
}

pub(crate) fn took_line(
    alloc: Global,
    w: u64,
    from: u64,
    n: u64,
    a: AlertKind,
) -> Result<Vec<u8>, NoMemory>
    ensures { IfOk result (λ text. text.items ≡ line (Event.Took w from n a)) }
{
    let mut out = room(alloc)?;
    put_number(&mut out, b"took w=", w)?;
    put_number(&mut out, b" from=", from)?;
    put_number(&mut out, b" n=", n)?;
    put_word(&mut out, b" a=", kind_word(a))?;
    Ok(out)
}

pub(crate) fn pending_line(alloc: Global, n: u64) -> Result<Vec<u8>, NoMemory>
    ensures { IfOk result (λ text. text.items ≡ line (Event.Pending n)) }
{
    let mut out = room(alloc)?;
    put_number(&mut out, b"pending n=", n)?;
    Ok(out)
}

pub(crate) fn quiet_line(alloc: Global) -> Result<Vec<u8>, NoMemory>
    ensures { IfOk result (λ text. text.items ≡ line Event.Quiet) }
{
    let mut out = room(alloc)?;
    put(&mut out, b"quiet")?;
    Ok(out)
}

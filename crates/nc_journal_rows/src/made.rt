//! Events made by hand, each field by its name.
ghost use Rattle.std.specs.Prelude.{◌≡◌, ◌<◌, length, IfOk};
ghost use Rattle.nc_types.specs.Id.{IsTime};
ghost use Rattle.nc_types.specs.Cursor.{AreTags};

use nc_journal::{AlertKind, Event, line_of, put_lines, text_grows};
use nc_types::{Bytes, ChanName, Cursor, List, MsgId, NoMemory};
use std::alloc::Global;

fn bytes(alloc: Global, text: &[u8]) -> Result<Bytes, NoMemory>
    ensures { IfOk result (λ bytes. bytes ≡ text.now) }
{
    Ok(List::of(Vec::from_slice(alloc, text)?))
}

fn name(alloc: Global, text: &[u8]) -> Result<ChanName, NoMemory> {
    let bytes = bytes(alloc, text)?;
    Ok(ChanName { bytes })
}

fn cursor(alloc: Global, time: u64, tags: &[i32]) -> Result<Cursor, NoMemory>
    requires time { IsTime time }
    requires some { 0 < length tags.now }
    requires tags { AreTags tags.now }
{
    let tags = List::of(Vec::from_slice(alloc, tags)?);
    Ok(Cursor { time, tags })
}

fn stored(alloc: Global) -> Result<Event, NoMemory> {
    Ok(Event::Stored {
        w: 1,
        c: name(alloc, b"a\"")?,
        id: MsgId { time: 100, tag: 0 },
        slot: 2,
        len: 10,
        exp: 3700,
        kept: true,
        members: 3,
        from: 4,
        r: 5,
        ct: None,
        body: bytes(alloc, b"x\n\x00")?,
    })
}

fn sent(alloc: Global) -> Result<Event, NoMemory> {
    Ok(Event::Sent {
        w: 0,
        k: 1,
        i: 1,
        c: name(alloc, b"b")?,
        id: MsgId { time: 91, tag: 0 },
        cur: cursor(alloc, 91, &[-1, 0, 3])?,
        looks: List::of(Vec::from_slice(alloc, &[2u64, 5, 6])?),
    })
}

/// The line of an event, which is dropped, goes behind a text.
pub fn put_event(alloc: Global, event: Event, out: &mut Vec<u8>) -> Result<(), NoMemory> {
    let line = line_of(alloc, &event);
    drop(event);
    out.extend_from_slice(line?.as_slice())?;
    Ok(())
}

/// The lines of some events stand behind a text, in their order.
fn lines(alloc: Global) -> Result<Vec<u8>, NoMemory> {
    let mut text = Vec::from_slice(alloc, b"before\n")?;
    let events = [
        Event::Clock { w: 0, t: 100 },
        Event::Took {
            w: 0,
            from: 1,
            n: 3,
            a: AlertKind::PubAnswer,
        },
        Event::Quiet,
    ];
    put_lines(alloc, &mut text, &events)?;
    text_grows();
    Ok(text)
}

/// The text of an event made by hand goes behind a text, without its last LF.
pub fn put_made(alloc: Global, name: &str, out: &mut Vec<u8>) -> Result<(), NoMemory> {
    match name {
        "stored" => put_event(alloc, stored(alloc)?, out),
        "sent" => put_event(alloc, sent(alloc)?, out),
        "lines" => {
            let text = lines(alloc)?;
            out.extend_from_slice(text.strip_suffix(b"\n").unwrap_or(&text))?;
            Ok(())
        }
        _ => Ok(()),
    }
}

//! The steps of reading an item: each looks for the end of one part of it.
ghost use Rattle.std.specs.Prelude.{◌≡◌, ◌+◌, ◌≤◌, [], length, take, drop, Some, IsTrue, IsFalse};
ghost use Rattle.nc_http_head.specs.Ends.{head_end, line_end, Seen, SeenLine};
ghost use Rattle.nc_http_head.specs.Framing.{framing_of};
ghost use Rattle.nc_http_head.specs.Heads.{AreOneLine};
ghost use Rattle.nc_http_head.specs.declared.ends.Place.TheVariants.{Start as LineStart, Inside};
ghost use Rattle.nc_http_in.specs.Bodies.{with_body};
ghost use Rattle.nc_http_in.specs.Held.{begun, counted, line, chunk, trailer};
ghost use Rattle.nc_http_in.specs.Reading.{part_of, Notes, StillWaits, IsBegun, IsTurn, IsEndOfTurns, turn_behind_head, turn_behind_line};

use crate::draft::Draft;
use crate::stage::{Found, Stage, Turn};
use nc_http_head::{
    Ending, Framing, Place, end_behind, framing_of, head_of, is_closed, line_behind, size_of_line,
    unblanked,
};
use nc_types::Request;
use std::alloc::Global;

/// The most bytes of a head, and of a trailer.
const HEAD: usize = 16_384;

/// The most bytes of a chunk line, with its LF.
const LINE: usize = 1_024;

/// The most bytes of a body.
const BODY: u64 = 65_536;

/// The first `len` bytes.
fn front(text: &[u8], len: usize) -> &[u8]
    requires { len ≤ length text.now }
    ensures { result.now ≡ take len text.now }
{
    &text[..len]
}

/// The bytes behind the first `len`.
fn behind(text: &[u8], len: usize) -> &[u8]
    requires { len ≤ length text.now }
    ensures { result.now ≡ drop len text.now }
{
    &text[len..]
}

fn waits(stage: Stage) -> Turn
    ensures { result ≡ record { taken = 0; found = Found.Waits stage } }
{
    Turn {
        taken: 0,
        found: Found::Waits(stage),
    }
}

fn refused(status: u16) -> Turn
    ensures { result ≡ record { taken = 0; found = Found.Refused status } }
{
    Turn {
        taken: 0,
        found: Found::Refused(status),
    }
}

fn short(stage: Stage) -> Turn
    ensures { result ≡ record { taken = 0; found = Found.Short stage } }
{
    Turn {
        taken: 0,
        found: Found::Short(stage),
    }
}

fn on(taken: usize, stage: Stage) -> Turn
    ensures { result ≡ record { taken = taken; found = Found.On stage } }
{
    Turn {
        taken,
        found: Found::On(stage),
    }
}

/// What follows a head of `len` bytes, by its framing.
fn behind_head(alloc: Global, len: usize, request: Request) -> Turn
    requires { AreOneLine request.fields }
    ensures { result ≡ turn_behind_head len (with_body request []) (framing_of request.minor request.fields) }
{
    let framing = framing_of(&request);
    let draft = Draft::new(alloc, request);
    match framing {
        Framing::Chunked => on(len, Stage::Line { draft, seen: 0 }),
        Framing::Long(need) => on(len, Stage::Body { draft, need }),
        Framing::Faulty(status) => refused(status),
    }
}

/// Reads a head of `len` bytes.
fn read_whole_head(alloc: Global, text: &[u8], len: usize) -> Turn
    requires begun { IsBegun text.now }
    requires end { head_end text.now ≡ Some len }
    requires fits { len ≤ 16384 }
    requires within { len ≤ length text.now }
    ensures { IsTurn begun text.now result }
{
    match head_of(alloc, front(text, len)) {
        Ok(Some(request)) => behind_head(alloc, len, request),
        Ok(None) => refused(400),
        Err(_) => short(Stage::Head {
            seen: 0,
            place: Place::Inside,
        }),
    }
}

/// Looks for the end of a head.
fn read_head(alloc: Global, text: &[u8], seen: usize, place: Place) -> Turn
    requires begun { IsBegun text.now }
    requires seen { Seen Inside seen place text.now }
    ensures { IsTurn begun text.now result }
{
    match end_behind(text, Place::Inside, seen, place) {
        Ending::At(len) => {
            if len > HEAD {
                refused(400)
            } else {
                read_whole_head(alloc, text, len)
            }
        }
        Ending::Open(place) => {
            let seen = text.len();
            if seen >= HEAD {
                refused(400)
            } else {
                waits(Stage::Head { seen, place })
            }
        }
    }
}

/// Passes the CR and LF bytes before a request, and looks for the end of its head.
fn read_start(alloc: Global, text: &[u8]) -> Turn
    ensures { IsTurn begun text.now result }
{
    let rest = unblanked(text);
    let blanks = text.len() - rest.len();
    if blanks == text.len() {
        return Turn {
            taken: blanks,
            found: Found::Waits(Stage::Start),
        };
    }
    let turn = read_head(alloc, rest, 0, Place::Inside);
    Turn {
        taken: blanks + turn.taken,
        found: turn.found,
    }
}

/// Waits for a body of a length.
fn read_body(text: &[u8], mut draft: Draft, need: usize) -> Turn
    ensures { IsTurn (counted draft need) text.now result }
{
    if text.len() < need {
        return waits(Stage::Body { draft, need });
    }
    match draft.put(front(text, need)) {
        Ok(()) => Turn {
            taken: need,
            found: Found::Whole(draft.whole()),
        },
        Err(_) => short(Stage::Body { draft, need }),
    }
}

/// What follows a chunk line of `len` bytes: the trailer, or the bytes of a chunk.
fn behind_line(len: usize, draft: Draft, size: u64) -> Turn
    requires { length draft.body ≤ 65536 }
    ensures { result ≡ turn_behind_line len draft size }
{
    if size == 0 {
        return on(
            len,
            Stage::Trailer {
                draft,
                seen: 0,
                place: Place::Start,
            },
        );
    }
    if size > BODY - draft.len() as u64 {
        return refused(413);
    }
    on(
        len,
        Stage::Data {
            draft,
            size: size as usize,
        },
    )
}

/// Reads a chunk line of `len` bytes.
fn read_whole_line(text: &[u8], draft: Draft, len: usize) -> Turn
    requires end { line_end text.now ≡ Some len }
    requires within { len ≤ length text.now }
    requires fits { length draft.body ≤ 65536 }
    ensures { IsTurn (line draft) text.now result }
{
    if len > LINE {
        return refused(400);
    }
    match size_of_line(front(text, len)) {
        Some(size) => behind_line(len, draft, size),
        None => refused(400),
    }
}

/// Looks for the end of a chunk line.
fn read_line(text: &[u8], draft: Draft, seen: usize) -> Turn
    requires seen { SeenLine seen text.now }
    requires fits { length draft.body ≤ 65536 }
    ensures { IsTurn (line draft) text.now result }
{
    match line_behind(text, seen) {
        Some(len) => read_whole_line(text, draft, len),
        None => {
            let seen = text.len();
            if seen >= LINE {
                refused(400)
            } else {
                waits(Stage::Line { draft, seen })
            }
        }
    }
}

/// Waits for the bytes of a chunk, and the CR and LF behind them.
fn read_data(text: &[u8], mut draft: Draft, size: usize) -> Turn
    requires { length draft.body + size ≤ 65536 }
    ensures { IsTurn (chunk draft size) text.now result }
{
    if text.len() < size + 2 {
        return waits(Stage::Data { draft, size });
    }
    if !is_closed(text, size) {
        return refused(400);
    }
    match draft.put(front(text, size)) {
        Ok(()) => on(size + 2, Stage::Line { draft, seen: 0 }),
        Err(_) => short(Stage::Data { draft, size }),
    }
}

/// Looks for the end of a trailer.
fn read_trailer(text: &[u8], draft: Draft, seen: usize, place: Place) -> Turn
    requires { Seen LineStart seen place text.now }
    ensures { IsTurn (trailer draft) text.now result }
{
    match end_behind(text, Place::Start, seen, place) {
        Ending::At(len) => {
            if len > HEAD {
                refused(400)
            } else {
                Turn {
                    taken: len,
                    found: Found::Whole(draft.whole()),
                }
            }
        }
        Ending::Open(place) => {
            let seen = text.len();
            if seen >= HEAD {
                refused(400)
            } else {
                waits(Stage::Trailer { draft, seen, place })
            }
        }
    }
}

/// One step from a stage on.
fn read(alloc: Global, text: &[u8], stage: Stage) -> Turn
    requires { Notes stage text.now }
    ensures { IsTurn (part_of stage) text.now result }
{
    match stage {
        Stage::Start => read_start(alloc, text),
        Stage::Head { seen, place } => read_head(alloc, text, seen, place),
        Stage::Body { draft, need } => read_body(text, draft, need),
        Stage::Line { draft, seen } => read_line(text, draft, seen),
        Stage::Data { draft, size } => read_data(text, draft, size),
        Stage::Trailer { draft, seen, place } => read_trailer(text, draft, seen, place),
        Stage::Bad { status } => refused(status),
    }
}

fn settled(taken: usize, found: Found) -> Turn
    ensures { result ≡ record { taken = taken; found = found } }
{
    Turn { taken, found }
}

/// Steps until an item was found, or more bytes are wanted, or there was no memory.
pub fn read_on(alloc: Global, text: &[u8], first: Stage) -> Turn
    requires { Notes first text.now }
    ensures { IsEndOfTurns (part_of first) text.now result }
{
    let mut stage = first;
    let mut from = 0;
    loop {
        let turn = read(alloc, behind(text, from), stage);
        from += turn.taken;
        match turn.found {
            Found::On(next) => stage = next,
            Found::Waits(next) => return settled(from, Found::Waits(next)),
            Found::Whole(request) => return settled(from, Found::Whole(request)),
            Found::Refused(status) => return settled(from, Found::Refused(status)),
            Found::Short(next) => return settled(from, Found::Short(next)),
        }
    }
}

/// Whether these bytes are not yet all of the part that is next: then it is noted how far they were looked through, and
/// nothing is moved.
pub fn still_waits(stage: &mut Stage, text: &[u8]) -> bool
    requires { Notes stage.old text.now }
    ensures waits { IsTrue result → StillWaits stage.old stage.new text.now }
    ensures same { IsFalse result → stage.new ≡ stage.old }
{
    match stage {
        Stage::Start => false,
        Stage::Head { seen, place } => match end_behind(text, Place::Inside, *seen, *place) {
            Ending::At(_) => false,
            Ending::Open(next) => {
                if text.len() >= HEAD {
                    return false;
                }
                *seen = text.len();
                *place = next;
                true
            }
        },
        Stage::Body { need, .. } => text.len() < *need,
        Stage::Line { seen, .. } => match line_behind(text, *seen) {
            Some(_) => false,
            None => {
                if text.len() >= LINE {
                    return false;
                }
                *seen = text.len();
                true
            }
        },
        Stage::Data { size, .. } => text.len() < *size + 2,
        Stage::Trailer { seen, place, .. } => match end_behind(text, Place::Start, *seen, *place) {
            Ending::At(_) => false,
            Ending::Open(next) => {
                if text.len() >= HEAD {
                    return false;
                }
                *seen = text.len();
                *place = next;
                true
            }
        },
        Stage::Bad { .. } => false,
    }
}

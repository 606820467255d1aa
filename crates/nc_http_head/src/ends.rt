//! Where the parts of a request end: searches that go on where the last one stopped.
ghost use Rattle.std.specs.Prelude.{◌≡◌, ◌+◌, ◌<◌, ◌≤◌, length, take, drop, IfSome, Some, None};
ghost use Rattle.nc_http_head.specs.Ends.{is_blank, unblanked, is_line_start, behind_return, place_after, place_over, ends_here, end_from, line_from, IsEnding, Seen, SeenLine};

/// Where the next byte of a text stands.
#[derive(Clone, Copy, Debug, PartialEq, Eq)]
pub enum Place {
    /// Behind an LF.
    Start,
    /// Behind an LF and a CR.
    Return,
    /// Anywhere else.
    Inside,
}

/// What a search for the first empty line came to.
#[derive(Clone, Copy, Debug, PartialEq, Eq)]
pub enum Ending {
    /// The line ends with so many bytes.
    At(usize),
    /// There is none yet, and the next byte stands there.
    Open(Place),
}

fn is_blank(byte: u8) -> bool
    ensures { result ≡ is_blank byte }
{
    byte == b'\r' || byte == b'\n'
}

/// A text from its first byte on that is neither CR nor LF.
pub fn unblanked(text: &[u8]) -> &[u8]
    ensures { result.now ≡ unblanked text.now }
{
    for (i, byte) in text.iter().enumerate() {
        if !is_blank(*byte) {
            return &text[i..];
        }
    }
    &[]
}

fn is_line_start(place: Place) -> bool
    ensures { result ≡ is_line_start place }
{
    match place {
        Place::Start => true,
        Place::Return => true,
        Place::Inside => false,
    }
}

fn behind_return(place: Place) -> Place
    ensures { result ≡ behind_return place }
{
    match place {
        Place::Start => Place::Return,
        Place::Return => Place::Inside,
        Place::Inside => Place::Inside,
    }
}

fn place_after(place: Place, byte: u8) -> Place
    ensures { result ≡ place_after place byte }
{
    if byte == b'\n' {
        Place::Start
    } else if byte == b'\r' {
        behind_return(place)
    } else {
        Place::Inside
    }
}

fn ends_here(place: Place, byte: u8) -> bool
    ensures { result ≡ ends_here place byte }
{
    byte == b'\n' && is_line_start(place)
}

/// The end of the first empty line, behind `seen` bytes and with the first byte at a place.
fn find_end(rest: &[u8], seen: usize, place: Place) -> Ending
    requires { seen + length rest.now < 9223372036854775808 }
    ensures { IsEnding (end_from seen place rest.now) (place_over place rest.now) result }
{
    let mut next = place;
    for (i, byte) in rest.iter().enumerate() {
        if ends_here(next, *byte) {
            return Ending::At(seen + i + 1);
        }
        next = place_after(next, *byte);
    }
    Ending::Open(next)
}

/// The end of the first line, behind `seen` bytes.
fn find_line(rest: &[u8], seen: usize) -> Option<usize>
    requires { seen + length rest.now < 9223372036854775808 }
    ensures { result ≡ line_from seen rest.now }
{
    for (i, byte) in rest.iter().enumerate() {
        if *byte == b'\n' {
            return Some(seen + i + 1);
        }
    }
    None
}

/// The bytes behind the first `seen`.
fn behind(text: &[u8], seen: usize) -> &[u8]
    requires { seen ≤ length text.now }
    ensures { result.now ≡ drop seen text.now }
{
    &text[seen..]
}

/// The end of the first empty line of a text that begins at `first`, of which `seen` bytes were looked at: `place` is where
/// the next one stands. Only the bytes behind these are looked at.
pub fn end_behind(text: &[u8], first: Place, seen: usize, place: Place) -> Ending
    requires { Seen first seen place text.now }
    ensures { IsEnding (end_from 0 first text.now) (place_over first text.now) result }
{
    find_end(behind(text, seen), seen, place)
}

/// The end of the first line of a text, of which `seen` bytes were looked at. Only the bytes behind these are looked at.
pub fn line_behind(text: &[u8], seen: usize) -> Option<usize>
    requires { SeenLine seen text.now }
    ensures { result ≡ line_from 0 text.now }
{
    find_line(behind(text, seen), seen)
}

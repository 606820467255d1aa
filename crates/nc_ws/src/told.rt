//! What a read of a socket came to, in a word.
ghost use Rattle.std.specs.Prelude.{◌≡◌};
ghost use Rattle.std.specs.IoError.{error_kind};
ghost use Rattle.nc_ws.specs.Reads.{Reading, is_last};
ghost use Rattle.nc_ws.specs.Told.{told_of_kind, told_of_error, told_of_message};

use crate::pipe::Pipe;
use std::io::ErrorKind;
use tungstenite::{Error, Message, NoMask, WebSocket};

/// What a read came to.
#[derive(Clone, Copy)]
pub enum Told {
    /// A text or binary message.
    Data,
    /// A ping or a pong.
    Control,
    /// A close.
    Close,
    /// The pipe held no bytes.
    Empty,
    /// There was no memory.
    NoMemory,
    /// Any other error.
    Failed,
}

fn of_kind(kind: ErrorKind) -> Told
    ensures { result ≡ told_of_kind kind }
{
    match kind {
        ErrorKind::WouldBlock => Told::Empty,
        ErrorKind::OutOfMemory => Told::NoMemory,
        _ => Told::Failed,
    }
}

fn of_error(error: &Error) -> Told
    ensures { result ≡ told_of_error error.now }
{
    match error {
        Error::OutOfMemory => Told::NoMemory,
        Error::Io(cause) => of_kind(cause.kind()),
        _ => Told::Failed,
    }
}

fn of_message(message: &Message) -> Told
    ensures { result ≡ told_of_message message.now }
{
    match message {
        Message::Text(_) | Message::Binary(_) => Told::Data,
        Message::Ping(_) | Message::Pong(_) => Told::Control,
        Message::Close(_) => Told::Close,
    }
}

/// One read of a socket, in a word.
pub fn read_once(socket: &mut WebSocket<Pipe, NoMask>) -> Told
    ensures { Reading socket.old socket.new result }
{
    match socket.read() {
        Ok(message) => of_message(&message),
        Err(error) => of_error(&error),
    }
}

/// Whether a read is the last of a call: it found the pipe empty, or gave a close or a fault.
pub fn is_last(told: Told, pipe: &Pipe) -> bool
    ensures { result ≡ is_last told pipe.now.bytes.items }
{
    match told {
        Told::Data => false,
        Told::Control => false,
        Told::Empty => pipe.bytes.is_empty(),
        Told::Close => true,
        Told::NoMemory => true,
        Told::Failed => true,
    }
}

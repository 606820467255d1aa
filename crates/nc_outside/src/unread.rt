//! Bytes in memory that are read from the front.
ghost use Rattle.std.specs.Prelude.{◌≡◌, ◌≤◌, ◌∷◌, [], take, length, min};
ghost use Rattle.nc_outside.specs.Flow.{MovesTo};

use crate::trace::Trace;
use nc_types::Bytes;

/// Bytes of which those before a place were read.
#[derive(Drop)]
pub struct Unread {
    bytes: Bytes,
    at: usize,
    trace: Trace,
    ghost within: { at ≤ length bytes },
}

impl Unread {
    ghost use Rattle.std.specs.Prelude.{Some};
    ghost use Rattle.nc_outside.specs.Memory.{unread, given};

    /// All of the bytes, none of them read.
    pub fn new(bytes: Bytes) -> Unread
        ensures unread { unread result ≡ bytes }
        ensures given { given result ≡ [] }
    {
        Unread {
            bytes,
            at: 0,
            trace: Trace::new(),
        }
    }

    /// Moves as many bytes to the front of the room as it takes, and says how many.
    pub fn fill(&mut self, room: &mut [u8]) -> usize
        ensures many { result ≡ min (length room.old) (length (unread self.old)) }
        ensures given { given self.new ≡ take result room.new ∷ given self.old }
        ensures moved { MovesTo (unread self.old) (Some (unread self.new)) room.new result }
    {
        let rest = &self.bytes.as_slice()[self.at..];
        let many = room.len().min(rest.len());
        room[..many].copy_from_slice(&rest[..many]);
        self.at += many;
        self.trace.note(&room[..many]);
        many
    }
}

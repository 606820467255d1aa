//! What words stand for, each in 16 bytes: a short text itself, or a box with a longer one.
ghost use Rattle.std.specs.Prelude.{◌≡◌, IfOk, IfSome};

use std::alloc::{AllocError, Global};
use std::marker::Model;

/// How many bytes a short text has at most. With its length and the sign of its kind they make 16.
const ROOM: usize = 14;

/// A short text. Contracts see the list of its bytes.
#[derive(Drop)]
struct Short {
    bytes: [u8; ROOM],
    len: u8,
}

impl Model for Short {
    ghost use Rattle.std.specs.Prelude.{ℕ, List, ◌≤◌, take};

    ghost Value = { List ℕ };

    ghost view = { λ s. take s.len s.bytes };

    ghost invariant = { λ s. s.len ≤ 14 };
}

impl Short {
    /// A text as a short one, unless it is longer.
    fn of(text: &[u8]) -> Option<Short>
        ensures { IfSome result (λ short. short ≡ text.now) }
    {
        if text.len() > ROOM {
            return None;
        }
        let mut bytes = [0; ROOM];
        bytes[..text.len()].copy_from_slice(text);
        Some(Short {
            bytes,
            len: text.len() as u8,
        })
    }

    fn as_slice(&self) -> &[u8]
        ensures { result.now ≡ self.now }
    {
        &self.bytes[..usize::from(self.len)]
    }
}

/// The bytes of a word.
#[derive(Drop)]
enum Kept<'t> {
    Short(Short),
    /// Bytes that stand in the text.
    Standing(Box<&'t [u8]>),
    /// Bytes that don't, since backslashes were taken out.
    Written(Box<Vec<u8>>),
}

/// What a word stands for. Contracts see the list of its bytes.
#[derive(Drop)]
pub struct WordText<'t> {
    kept: Kept<'t>,
}

impl<'t> Model for WordText<'t> {
    ghost use Rattle.std.specs.Prelude.{ℕ, List};
    ghost use Rattle.nc_conf_lex.specs.Kept.{kept_bytes};

    ghost Value = { List ℕ };

    ghost view = { λ text. kept_bytes text.kept };
}

impl<'t> WordText<'t> {
    /// Bytes of the text, as they stand there.
    pub(crate) fn standing(alloc: Global, bytes: &'t [u8]) -> Result<WordText<'t>, AllocError>
        ensures { IfOk result (λ text. text ≡ bytes.now) }
    {
        let kept = match Short::of(bytes) {
            Some(short) => Kept::Short(short),
            None => Kept::Standing(Box::new(alloc, bytes)?),
        };
        Ok(WordText { kept })
    }

    /// Bytes that don't stand in the text.
    pub(crate) fn written(alloc: Global, bytes: Vec<u8>) -> Result<WordText<'t>, AllocError>
        ensures { IfOk result (λ text. text ≡ bytes.items) }
    {
        let kept = match Short::of(&bytes) {
            Some(short) => Kept::Short(short),
            None => Kept::Written(Box::new(alloc, bytes)?),
        };
        Ok(WordText { kept })
    }

    /// The bytes, in their order.
    pub fn as_slice(&self) -> &[u8]
        ensures { result.now ≡ self.now }
    {
        match &self.kept {
            Kept::Short(short) => short.as_slice(),
            Kept::Standing(bytes) => bytes,
            Kept::Written(bytes) => bytes.as_slice(),
        }
    }
}

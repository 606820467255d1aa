//! Tokens, and why there is none.
ghost use Rattle.std.specs.Prelude.{◌≡◌};
ghost use Rattle.nc_conf_lex.specs.declared.token.LexFault.TheVariants.{NoMemory as LexNoMemory};

use crate::word::WordText;
use nc_types::NoMemory;
use std::alloc::AllocError;

/// A token, with the place of its first byte in the text.
#[derive(Drop)]
pub enum Token<'t> {
    /// A plain or quoted word: what it stands for, and the place of its first byte or its opening sign.
    Word { at: usize, text: WordText<'t> },
    /// `{`
    Opening { at: usize },
    /// `}`
    Closing { at: usize },
    /// `;`
    End { at: usize },
}

/// Why there is no next token.
#[derive(Clone, Copy, Debug, PartialEq, Eq)]
pub enum LexFault {
    /// The byte at this place can be no part of a token, or a quoted word that begins there is not closed.
    Bad { at: usize },
    /// There was no memory for the next word.
    NoMemory,
}

impl From<AllocError> for LexFault {
    ghost from_gives = { λ _ e. e ≡ LexNoMemory };

    fn from(_: AllocError) -> Self {
        LexFault::NoMemory
    }
}

impl From<NoMemory> for LexFault {
    ghost from_gives = { λ _ e. e ≡ LexNoMemory };

    fn from(_: NoMemory) -> Self {
        LexFault::NoMemory
    }
}

//! Why a text is no id of a list.
ghost use Rattle.std.specs.Prelude.{◌≡◌};
ghost use Rattle.nc_ident.specs.declared.refusal.IdRefusal.TheVariants.{NoMemory as Wanting};

use nc_grammar::Unread;
use nc_types::NoMemory;
use std::alloc::{AllocError, AllocFailed};

/// Why a text is no id, or no tags, of a list with a number of names.
#[derive(Clone, Copy, Debug, PartialEq, Eq)]
pub enum IdRefusal {
    /// The text is none for any number of names.
    ///
    /// `at` is the length of its longest prefix that begins one.
    Malformed { at: usize },
    /// The text is one with `found` tags, which is another number.
    TagCount { found: usize },
    /// There was no memory for the tags.
    NoMemory,
}

impl From<NoMemory> for IdRefusal {
    ghost from_gives = { λ _ e. e ≡ Wanting };

    fn from(_: NoMemory) -> IdRefusal {
        IdRefusal::NoMemory
    }
}

impl From<AllocError> for IdRefusal {
    ghost from_gives = { λ _ e. e ≡ Wanting };

    fn from(_: AllocError) -> IdRefusal {
        IdRefusal::NoMemory
    }
}

impl<T: Drop> From<AllocFailed<T>> for IdRefusal {
    ghost from_gives = { λ _ e. e ≡ Wanting };

    fn from(_: AllocFailed<T>) -> IdRefusal {
        IdRefusal::NoMemory
    }
}

impl From<Unread> for IdRefusal {
    ghost use Rattle.nc_ident.specs.Refusal.{refusal_of};

    ghost from_gives = { λ unread e. e ≡ refusal_of unread };

    fn from(unread: Unread) -> IdRefusal {
        match unread {
            Unread::Bad { place } => IdRefusal::Malformed { at: place },
            Unread::NoMemory => IdRefusal::NoMemory,
        }
    }
}

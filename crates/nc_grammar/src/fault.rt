//! Why a text isn't read: the error of a reader, and that of a whole text.
ghost use Rattle.std.specs.Prelude.{◌≡◌};
ghost use Rattle.nc_grammar.specs.declared.fault.Fault.TheVariants.{NoMemory as Wanting};

use nc_types::NoMemory;
use std::alloc::{AllocError, AllocFailed};

/// Why a reader stopped.
#[derive(Clone, Copy, Debug, PartialEq, Eq)]
pub enum Fault {
    /// No value's text goes on with the first byte that is left, or ends where nothing is left.
    Stuck,
    /// Memory ran out.
    NoMemory,
}

/// Why a whole text isn't read.
#[derive(Clone, Copy, Debug, PartialEq, Eq)]
pub enum Unread {
    /// No value has this text. `place` counts the bytes of its longest prefix that begins some value's text.
    Bad { place: usize },
    /// Memory ran out.
    NoMemory,
}

impl From<NoMemory> for Fault {
    ghost from_gives = { λ _ e. e ≡ Wanting };

    fn from(_: NoMemory) -> Fault {
        Fault::NoMemory
    }
}

impl From<AllocError> for Fault {
    ghost from_gives = { λ _ e. e ≡ Wanting };

    fn from(_: AllocError) -> Fault {
        Fault::NoMemory
    }
}

impl<T: Drop> From<AllocFailed<T>> for Fault {
    ghost from_gives = { λ _ e. e ≡ Wanting };

    fn from(_: AllocFailed<T>) -> Fault {
        Fault::NoMemory
    }
}

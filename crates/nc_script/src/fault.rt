//! What is wrong with a line of a script.
ghost use Rattle.std.specs.Prelude.{◌≡◌};
ghost use Rattle.nc_script.specs.declared.fault.LineFault.TheVariants as LineFault;

use nc_types::NoMemory;
use std::alloc::AllocError;

/// A line breaks a rule (docs/SCRIPT.md), or there was no memory to read it.
#[derive(Clone, Copy, Debug, PartialEq, Eq)]
pub enum LineFault {
    /// The lowest rule that the line breaks, and its place in the line, counted from 0.
    Rule { rule: u8, at: usize },
    NoMemory,
}

impl From<NoMemory> for LineFault {
    ghost from_gives = { λ _ e. e ≡ LineFault.NoMemory };

    fn from(_: NoMemory) -> Self {
        LineFault::NoMemory
    }
}

impl From<AllocError> for LineFault {
    ghost from_gives = { λ _ e. e ≡ LineFault.NoMemory };

    fn from(_: AllocError) -> Self {
        LineFault::NoMemory
    }
}

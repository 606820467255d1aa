//! What is wrong with a script.

/// A line breaks a rule of docs/SCRIPT.md.
#[derive(Clone, Copy, Debug, PartialEq, Eq)]
pub struct Fault {
    /// The line, counted from 1 over the whole script.
    pub line: u64,
    /// The lowest rule that it breaks.
    pub rule: u8,
    /// The place in the line, counted from 0.
    pub at: usize,
}

/// What stands before the lines of a script breaks a rule of configurations.
#[derive(Clone, Copy, Debug, PartialEq, Eq)]
pub struct Misconfigured {
    /// The lowest rule that it breaks.
    pub rule: u8,
    /// The place in the script, counted from 0.
    pub at: usize,
}

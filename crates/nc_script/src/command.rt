//! The first words of lines.

/// What a line begins with.
#[derive(Clone, Copy, Debug, PartialEq, Eq)]
pub enum Command {
    Clock,
    Reap,
    Post,
    Poll,
    Carry,
    Take,
    Settle,
    Drop,
    Info,
}

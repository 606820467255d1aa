//! What follows from the definitions of lines, proved once for all lines.
//!
//! Each function at most cites laws of the crates below: its contract is the law.
ghost use Rattle.nc_script.specs.Script.{LinesAreSure, LinesFit};

use nc_types::laws::{one_meaning, one_place};

/// A text says one line, or breaks one rule at one place.
pub fn lines_are_sure()
    ensures { LinesAreSure }
{
    one_meaning();
    one_place();
}

/// The workers of a line are there, and its numbers, its list and its start are within their limits.
pub fn lines_fit()
    ensures { LinesFit }
{}

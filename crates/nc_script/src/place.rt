//! The places of the rules that are judged behind a line's reading.
ghost use Rattle.std.specs.Prelude.{◌≡◌};
ghost use Rattle.nc_script.specs.Script.{IsPoll, HasNumberAt};

use crate::split::just_four;

/// The place of a subscriber's number in a poll.
fn number_place(text: &[u8]) -> usize
    requires { IsPoll text.now }
    ensures { HasNumberAt text.now result }
{
    match just_four(text) {
        Some(words) => words.second.at,
        None => 0,
    }
}

/// The place at which a line that is read breaks a rule of a higher number (docs/SCRIPT.md).
///
/// Rule 10 is the one that there is: a poll names a subscriber's number that was used before, and the place is that number's.
pub fn place_of(text: &[u8], rule: u8) -> usize
    requires poll { IsPoll text.now }
    requires rule { rule ≡ 10 }
    ensures { HasNumberAt text.now result }
{
    match rule {
        10 => number_place(text),
        _ => 0,
    }
}

//! Dates of HTTP, written and read.
ghost use Rattle.std.specs.Prelude.{◌≡◌, ℕ, IfSome, IfNone};
ghost use Rattle.nc_types.specs.Id.{IsTime};
ghost use Rattle.nc_ident.specs.Date.{IsFixedDate, SpellsDate};

use httpdate::HttpDate;

/// The date of a second since 1970, in the fixed form of RFC 9110, as `Sun, 06 Nov 1994 08:49:37 GMT`.
#[tactic(auto, using(crate::proofs::Dates::fixed_date))]
pub fn spell_date(time: u64) -> [u8; 29]
    requires { IsTime time }
    ensures { IsFixedDate result time }
{
    match HttpDate::from_unix_secs(time) {
        Ok(date) => date.to_bytes(),
        Err(_) => unreachable!(),
    }
}

/// The second since 1970 of a date in one of the three forms of RFC 9110, or `None` where the text is no such date.
pub fn read_date(text: &[u8]) -> Option<u64>
    ensures some { IfSome result (λ time. SpellsDate text.now time) }
    ensures within { IfSome result (λ time. IsTime time) }
    ensures none { IfNone result ((time : ℕ) → ¬ (SpellsDate text.now time)) }
{
    match HttpDate::parse_ascii(text) {
        Ok(date) => Some(date.unix_secs()),
        Err(_) => None,
    }
}

//! What follows from the definitions, proved once for all texts.
//!
//! The function does nothing: its contract is the laws.
ghost use Rattle.nc_conf.specs.Answer.{OneFirst, OneConfig, NeverBoth};

/// A text has one configuration or one first fault, and not both.
pub fn one_answer()
    ensures first { OneFirst }
    ensures config { OneConfig }
    ensures both { NeverBoth }
{
    nc_conf_lex::laws::one_reading();
}

//! What follows from the definitions, proved once for all texts.
//!
//! Each function does nothing: its contract is the law.
ghost use Rattle.nc_conf_lex.specs.Reading.{OneComes, OneReading};

/// From each place of a text on one thing comes next, a token, the end or a fault, and one alone.
pub fn one_comes()
    ensures { OneComes }
{}

/// A text has one list of tokens, and one end or first fault behind them.
pub fn one_reading()
    ensures { OneReading }
{}

//! What follows from the definitions of owners and texts, proved once for all of them.
//!
//! Each function does nothing: its contract is the law.
ghost use Rattle.std.specs.Prelude.{ℕ, List};
ghost use Rattle.nc_types.specs.Channel.{HashIsSum};
ghost use Rattle.nc_types.specs.Text.{DecimalIsRead, ReadIsDecimal};
ghost use Rattle.nc_types.specs.Unquote.{QuoteIsRead, OneMeaning, OnePlace};

/// The number that a name's bytes are taken into one by one is the sum that tells the owner.
pub fn hash_is_sum()
    ensures { (name : List ℕ) → HashIsSum name }
{}

/// A number in decimal is read as that number.
pub fn decimal_is_read()
    ensures { (n : ℕ) → DecimalIsRead n }
{}

/// A text without zeros before its other digits that is read as a number is that number in decimal.
pub fn read_is_decimal()
    ensures { (text : List ℕ) (n : ℕ) → ReadIsDecimal text n }
{}

/// What is written of some bytes is a quoted text that stands for them.
pub fn quote_is_read()
    ensures { (bytes : List ℕ) → QuoteIsRead bytes }
{}

/// A text is quoted for one list of bytes at most.
pub fn one_meaning()
    ensures { (text : List ℕ) → OneMeaning text }
{}

/// A text stops being a quoted text at one place at most.
pub fn one_place()
    ensures { (text : List ℕ) → OnePlace text }
{}

//! What the readers' definitions promise of the texts that they read.
//!
//! Each law is a function that does nothing, whose clause is the law.
ghost use Rattle.std.specs.Prelude.{◌≡◌, ℕ, ◌<◌, ◌^◌, List, ◌∷◌, false};
ghost use Rattle.nc_grammar.specs.Exact.{IsExact};
ghost use Rattle.nc_grammar.specs.Number.{is_digit, IsNumber, number_at};
ghost use Rattle.nc_grammar.specs.Digits.{IsDigits, digits_at};
ghost use Rattle.nc_grammar.specs.Label.{IsLabel, nothing, label_at, IsWord, repeats, word_stays, word_at};
ghost use Rattle.nc_grammar.specs.Quoted.{IsQuoted, quoted_at};
ghost use Rattle.nc_grammar.specs.Whole.{EndsRightly};

/// A label is read where it stands, and nothing goes on behind it.
pub fn labels_are_read()
    ensures { (label : List ℕ) → IsExact (IsLabel label) nothing (label_at label) }
{}

/// A number up to a limit is read from its decimal text, of which there is one, and only digits can go on behind it.
pub fn numbers_are_read()
    ensures { (limit : ℕ) → limit < 2 ^ 64 → IsExact (IsNumber limit) is_digit (number_at limit) }
{}

/// A number up to a limit is read from the longest text of at most so many digits that writes one.
pub fn digits_are_read()
    ensures { (most limit : ℕ) → 0 < most → IsExact (IsDigits most limit) is_digit (digits_at most limit) }
{}

/// Of some words, of which no two are the same, one is read where reading goes on as long as any of them does, and ends with it.
pub fn words_are_read()
    ensures { (word : List ℕ) (words : List (List ℕ)) → repeats (word ∷ words) ≡ false
        → IsExact (IsWord (word ∷ words)) (word_stays (word ∷ words)) (word_at (word ∷ words)) }
{}

/// Bytes are read from their quoted text, of which there is one, and nothing goes on behind it.
pub fn quoted_texts_are_read()
    ensures { IsExact IsQuoted nothing quoted_at }
{}

/// Where a whole text is no value's, the place is the length of its longest prefix that begins some value's text.
pub fn stops_at_the_place()
    ensures labels { (label : List ℕ) → EndsRightly (IsLabel label) (label_at label) }
    ensures numbers { (limit : ℕ) → limit < 2 ^ 64 → EndsRightly (IsNumber limit) (number_at limit) }
    ensures digits { (most limit : ℕ) → 0 < most → EndsRightly (IsDigits most limit) (digits_at most limit) }
    ensures words { (word : List ℕ) (words : List (List ℕ)) → repeats (word ∷ words) ≡ false
        → EndsRightly (IsWord (word ∷ words)) (word_at (word ∷ words)) }
    ensures quoted_texts { EndsRightly IsQuoted quoted_at }
{}

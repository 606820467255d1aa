//! The words of a line, with their places.
//!
//! The parts of a line are read from its words.
ghost use Rattle.std.specs.Prelude.{◌≡◌, ◌<◌, ◌≤◌, ◌+◌, ◌^◌, ◌==◌, ◌∷◌, [], List, ℕ, Bool, length, take, drop, Option, Some, None, IfSome, IfNone, filter};
ghost use Rattle.std.specs.List.{position_or_len, before_first, slice_split};
ghost use Rattle.std.specs.Bool.{Decides};
ghost use Rattle.std.specs.Option.{option_map_or};
ghost use Rattle.nc_script.specs.Word.{Word, pieces_from, pieces_left, words_from, is_some, Takes};

use std::marker::Model;

/// Bytes that stand together in a line, and the place of the first, counted from 0.
#[derive(Drop)]
pub(crate) struct Word<'t> {
    pub at: usize,
    pub bytes: &'t [u8],
}

impl<'t> Model for Word<'t> {
    ghost use Rattle.std.specs.Prelude.{◌+◌, ◌<◌, ◌^◌, length};
    ghost use Rattle.nc_script.specs.Word.{Word as WordAt};

    ghost Value = { WordAt };

    ghost view = { λ word. record { at = word.at; bytes = word.bytes.now } };

    ghost invariant = { λ word. word.at + length word.bytes.now < 2 ^ 63 };
}

/// The pieces between the bytes of one sign, from left to right, empty ones too.
#[derive(Drop)]
pub(crate) struct Pieces<'t> {
    sign: u8,
    at: usize,
    rest: Option<&'t [u8]>,
}

impl<'t> Model for Pieces<'t> {
    ghost use Rattle.std.specs.Prelude.{◌+◌, ◌<◌, ◌^◌, length, List as Items, IfSome};
    ghost use Rattle.nc_script.specs.Word.{Word as WordAt, pieces_left};

    ghost Value = { Items WordAt };

    ghost view = { λ pieces. pieces_left pieces.sign pieces.at pieces.rest };

    ghost invariant = { λ pieces. IfSome pieces.rest (λ rest. pieces.at + length rest.now < 2 ^ 63) };
}

/// The place of the first byte of a sign, or the text's length where there is none.
pub(crate) fn place_of_sign(text: &[u8], sign: u8) -> usize
    ensures first { result ≡ position_or_len (λ b. b == sign) text.now }
    ensures within { result ≤ length text.now }
{
    for (at, byte) in text.iter().enumerate() {
        if *byte == sign {
            return at;
        }
    }
    text.len()
}

/// What stands before the first byte of a sign, and what stands behind it, if there is one.
fn cut(text: &[u8], sign: u8) -> (&[u8], Option<&[u8]>)
    ensures split { slice_split (λ b. b == sign) text.now ≡ result.0.now ∷ option_map_or (λ rest. slice_split (λ b. b == sign) rest.now) result.1 [] }
    ensures within { length result.0.now ≤ length text.now }
    ensures shorter { IfSome result.1 (λ rest. length result.0.now + 1 + length rest.now ≡ length text.now) }
{
    let end = place_of_sign(text, sign);
    if end == text.len() {
        return (text, None);
    }
    (&text[..end], Some(&text[end + 1..]))
}

impl<'t> Pieces<'t> {
    /// The pieces of a text that begins at a place.
    pub(crate) fn of(text: &'t [u8], at: usize, sign: u8) -> Pieces<'t>
        requires { at + length text.now < 2 ^ 63 }
        ensures { result ≡ pieces_from sign at text.now }
    {
        Pieces {
            sign,
            at,
            rest: Some(text),
        }
    }

    /// The next piece.
    pub(crate) fn next(&mut self) -> Option<Word<'t>>
        ensures { Takes self.old result self.new }
    {
        let rest = self.rest?;
        let (bytes, behind) = cut(rest, self.sign);
        let word = Word { at: self.at, bytes };
        self.at += bytes.len() + 1;
        self.rest = behind;
        Some(word)
    }
}

/// The words of a text, which are the pieces between spaces that aren't empty.
#[derive(Drop)]
pub(crate) struct Words<'t> {
    pieces: Pieces<'t>,
}

impl<'t> Model for Words<'t> {
    ghost use Rattle.std.specs.Prelude.{List as Items, filter};
    ghost use Rattle.nc_script.specs.Word.{Word as WordAt, is_some};

    ghost Value = { Items WordAt };

    ghost view = { λ words. filter is_some words.pieces };
}

impl<'t> Words<'t> {
    /// The words of a text that begins at a place.
    pub(crate) fn of(text: &'t [u8], at: usize) -> Words<'t>
        requires { at + length text.now < 2 ^ 63 }
        ensures { result ≡ words_from at text.now }
    {
        Words {
            pieces: Pieces::of(text, at, b' '),
        }
    }

    /// The next word.
    pub(crate) fn next(&mut self) -> Option<Word<'t>>
        ensures { Takes self.old result self.new }
    {
        while let Some(word) = self.pieces.next() {
            if !word.bytes.is_empty() {
                return Some(word);
            }
        }
        None
    }

    /// Whether no word is left.
    pub(crate) fn is_over(mut self) -> bool
        ensures { Decides result (self.entry ≡ []) }
    {
        self.next().is_none()
    }
}

//! Lines cut into their command and the words behind it.
//!
//! A line that has another number of words than its command wants breaks rule 3.
ghost use Rattle.std.specs.Prelude.{◌≡◌, ◌∷◌, [], List, ℕ, Option, Some, None, length};
ghost use Rattle.std.specs.Bool.{Decides};
ghost use Rattle.nc_script.specs.declared.fault.LineFault.TheVariants.{Rule};
ghost use Rattle.nc_script.specs.Word.{Word};
ghost use Rattle.nc_script.specs.Judge.{Judged, Finds};
ghost use Rattle.nc_script.specs.Line.{first_word, behind_first, command, EndsInSpace, AreWords, AreWordsBefore, one_word, two_words, four_words, two_words_and_text};

use crate::command::Command;
use crate::fault::LineFault;
use crate::word::{Word, Words, place_of_sign};
use std::marker::Model;

/// The bytes before the first space.
fn first_word(text: &[u8]) -> &[u8]
    ensures { result.now ≡ first_word text.now }
{
    let end = place_of_sign(text, b' ');
    &text[..end]
}

/// The command that a line begins with.
pub(crate) fn command(text: &[u8]) -> Result<Command, LineFault>
    ensures { Judged (command text.now) result }
{
    match first_word(text) {
        b"clock" => Ok(Command::Clock),
        b"reap" => Ok(Command::Reap),
        b"post" => Ok(Command::Post),
        b"poll" => Ok(Command::Poll),
        b"carry" => Ok(Command::Carry),
        b"take" => Ok(Command::Take),
        b"settle" => Ok(Command::Settle),
        b"drop" => Ok(Command::Drop),
        b"info" => Ok(Command::Info),
        _ => Err(LineFault::Rule { rule: 2, at: 0 }),
    }
}

fn ends_in_space(text: &[u8]) -> bool
    ensures { Decides result (EndsInSpace text.now) }
{
    text.last() == Some(&b' ')
}

/// The words behind the command, unless the line ends with a space.
fn words(text: &[u8]) -> Option<Words<'_>>
    ensures { Finds (AreWords text.now) result }
{
    if ends_in_space(text) {
        return None;
    }
    let end = first_word(text).len();
    Some(Words::of(&text[end..], end))
}

fn just_one(text: &[u8]) -> Option<Word<'_>>
    ensures { Finds (λ word. AreWords text.now (word ∷ [])) result }
{
    let mut words = words(text)?;
    let first = words.next()?;
    words.is_over().then_some(first)
}

fn just_two(text: &[u8]) -> Option<(Word<'_>, Word<'_>)>
    ensures { Finds (λ p. AreWords text.now (p.0 ∷ p.1 ∷ [])) result }
{
    let mut words = words(text)?;
    let first = words.next()?;
    let second = words.next()?;
    words.is_over().then_some((first, second))
}

/// The four words of a poll.
#[derive(Drop)]
pub(crate) struct Four<'t> {
    pub first: Word<'t>,
    pub second: Word<'t>,
    pub third: Word<'t>,
    pub fourth: Word<'t>,
}

impl<'t> Model for Four<'t> {
    ghost use Rattle.nc_script.specs.Line.{Four as FourWords};

    ghost Value = { FourWords };

    ghost view = { λ p. record { first = p.first; second = p.second; third = p.third; fourth = p.fourth } };
}

/// The words of a line that is a poll.
pub(crate) fn just_four(text: &[u8]) -> Option<Four<'_>>
    ensures { Finds (λ p. AreWords text.now (p.first ∷ p.second ∷ p.third ∷ p.fourth ∷ [])) result }
{
    let mut words = words(text)?;
    let first = words.next()?;
    let second = words.next()?;
    let third = words.next()?;
    let fourth = words.next()?;
    words.is_over().then_some(Four {
        first,
        second,
        third,
        fourth,
    })
}

/// The words of a line that has a quoted text.
#[derive(Drop)]
pub(crate) struct Quoting<'t> {
    pub first: Word<'t>,
    pub second: Word<'t>,
    pub quoted: Word<'t>,
}

impl<'t> Model for Quoting<'t> {
    ghost use Rattle.nc_script.specs.Line.{Quoting as QuotingWords};

    ghost Value = { QuotingWords };

    ghost view = { λ p. record { first = p.first; second = p.second; quoted = p.quoted } };
}

/// The words before the first `"` behind the command, and what begins there.
fn words_before(text: &[u8]) -> Option<(Words<'_>, Word<'_>)>
    ensures { Finds (λ p. AreWordsBefore text.now p.0 p.1) result }
{
    let end = first_word(text).len();
    let behind = &text[end..];
    let len = place_of_sign(behind, b'"');
    if len == behind.len() {
        return None;
    }
    let (before, bytes) = behind.split_at(len);
    Some((
        Words::of(before, end),
        Word {
            at: end + len,
            bytes,
        },
    ))
}

fn just_two_and_text(text: &[u8]) -> Option<Quoting<'_>>
    ensures { Finds (λ p. AreWordsBefore text.now (p.first ∷ p.second ∷ []) p.quoted) result }
{
    let (mut words, quoted) = words_before(text)?;
    let first = words.next()?;
    let second = words.next()?;
    words.is_over().then_some(Quoting {
        first,
        second,
        quoted,
    })
}

/// The fault of another number of words.
fn wrong_number(text: &[u8]) -> LineFault
    ensures { result ≡ Rule 3 (length text.now) }
{
    LineFault::Rule {
        rule: 3,
        at: text.len(),
    }
}

/// The one word behind the command.
#[tactic(auto, using(crate::proofs::Judging::found_or))]
pub(crate) fn one_word(text: &[u8]) -> Result<Word<'_>, LineFault>
    ensures { Judged (one_word text.now) result }
{
    just_one(text).ok_or(wrong_number(text))
}

/// The two words behind the command.
#[tactic(auto, using(crate::proofs::Judging::found_or))]
pub(crate) fn two_words(text: &[u8]) -> Result<(Word<'_>, Word<'_>), LineFault>
    ensures { Judged (two_words text.now) result }
{
    just_two(text).ok_or(wrong_number(text))
}

/// The four words behind the command.
#[tactic(auto, using(crate::proofs::Judging::found_or))]
pub(crate) fn four_words(text: &[u8]) -> Result<Four<'_>, LineFault>
    ensures { Judged (four_words text.now) result }
{
    just_four(text).ok_or(wrong_number(text))
}

/// The two words behind the command, and the quoted text behind them.
#[tactic(auto, using(crate::proofs::Judging::found_or))]
pub(crate) fn two_words_and_text(text: &[u8]) -> Result<Quoting<'_>, LineFault>
    ensures { Judged (two_words_and_text text.now) result }
{
    just_two_and_text(text).ok_or(wrong_number(text))
}

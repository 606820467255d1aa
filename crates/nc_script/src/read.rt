//! Lines read, by the rules in their order.
ghost use Rattle.std.specs.Prelude.{◌≡◌, ◌≤◌, ℕ, List, length};
ghost use Rattle.nc_script.specs.Judge.{Judged};
ghost use Rattle.nc_script.specs.Line.{clock_line, reap_line, post_line, poll_line, two_workers, carry_line, take_line, settle_line, drop_line, info_line, command_line, full_line, written_line, line};

use crate::command::Command;
use crate::fault::LineFault;
use crate::line::Line;
use crate::part::{body, list, name, number, start, worker};
use crate::split::{command, four_words, one_word, two_words, two_words_and_text};
use nc_types::ChanName;
use std::alloc::Global;

const LONGEST_LINE: usize = 262_144;

const GREATEST_NUMBER: u64 = 999_999_999_999_999_999;

const GREATEST_CLOCK: u64 = 4_102_444_800;

const GREATEST_SUBSCRIBER: u64 = 65_535;

/// `clock W T`
fn clock_line(text: &[u8], workers: u8) -> Result<Line, LineFault>
    ensures { Judged (clock_line workers text.now) result }
{
    let (first, second) = two_words(text)?;
    let n = number(&first, GREATEST_NUMBER)?;
    let t = number(&second, GREATEST_CLOCK)?;
    let w = worker(&first, n, workers)?;
    Ok(Line::Clock { w, t })
}

/// `reap W`
fn reap_line(text: &[u8], workers: u8) -> Result<Line, LineFault>
    ensures { Judged (reap_line workers text.now) result }
{
    let word = one_word(text)?;
    let n = number(&word, GREATEST_NUMBER)?;
    let w = worker(&word, n, workers)?;
    Ok(Line::Reap { w })
}

/// `post W NAME "TEXT"`
fn post_line(alloc: Global, text: &[u8], workers: u8) -> Result<Line, LineFault>
    ensures { Judged (post_line workers text.now) result }
{
    let words = two_words_and_text(text)?;
    let n = number(&words.first, GREATEST_NUMBER)?;
    let w = worker(&words.first, n, workers)?;
    let body = body(alloc, &words.quoted)?;
    let bytes = name(alloc, &words.second)?;
    let chan = ChanName { bytes };
    Ok(Line::Post { w, chan, body })
}

/// `poll W S LIST START`
fn poll_line(alloc: Global, text: &[u8], workers: u8) -> Result<Line, LineFault>
    ensures { Judged (poll_line workers text.now) result }
{
    let words = four_words(text)?;
    let n = number(&words.first, GREATEST_NUMBER)?;
    let k = number(&words.second, GREATEST_SUBSCRIBER)?;
    let w = worker(&words.first, n, workers)?;
    let list = list(alloc, &words.third)?;
    let start = start(alloc, &words.fourth, list.names.len())?;
    Ok(Line::Poll { w, k, list, start })
}

/// The two workers of a line that has no more words.
fn two_workers(text: &[u8], workers: u8) -> Result<(u8, u8), LineFault>
    ensures { Judged (two_workers workers text.now) result }
{
    let (first, second) = two_words(text)?;
    let n = number(&first, GREATEST_NUMBER)?;
    let m = number(&second, GREATEST_NUMBER)?;
    let w = worker(&first, n, workers)?;
    let v = worker(&second, m, workers)?;
    Ok((w, v))
}

/// `carry W V`
fn carry_line(text: &[u8], workers: u8) -> Result<Line, LineFault>
    ensures { Judged (carry_line workers text.now) result }
{
    let (w, to) = two_workers(text, workers)?;
    Ok(Line::Carry { w, to })
}

/// `take W V`
fn take_line(text: &[u8], workers: u8) -> Result<Line, LineFault>
    ensures { Judged (take_line workers text.now) result }
{
    let (w, from) = two_workers(text, workers)?;
    Ok(Line::Take { w, from })
}

/// `settle N`
fn settle_line(text: &[u8]) -> Result<Line, LineFault>
    ensures { Judged (settle_line text.now) result }
{
    let word = one_word(text)?;
    let n = number(&word, GREATEST_NUMBER)?;
    Ok(Line::Settle { n })
}

/// `drop W NAME`
fn drop_line(alloc: Global, text: &[u8], workers: u8) -> Result<Line, LineFault>
    ensures { Judged (drop_line workers text.now) result }
{
    let (first, second) = two_words(text)?;
    let n = number(&first, GREATEST_NUMBER)?;
    let w = worker(&first, n, workers)?;
    let bytes = name(alloc, &second)?;
    let chan = ChanName { bytes };
    Ok(Line::Remove { w, chan })
}

/// `info W NAME`
fn info_line(alloc: Global, text: &[u8], workers: u8) -> Result<Line, LineFault>
    ensures { Judged (info_line workers text.now) result }
{
    let (first, second) = two_words(text)?;
    let n = number(&first, GREATEST_NUMBER)?;
    let w = worker(&first, n, workers)?;
    let bytes = name(alloc, &second)?;
    let chan = ChanName { bytes };
    Ok(Line::Inform { w, chan })
}

/// A line that isn't blank.
fn full_line(alloc: Global, text: &[u8], workers: u8) -> Result<Line, LineFault>
    ensures { Judged (full_line workers text.now) result }
{
    match command(text)? {
        Command::Clock => clock_line(text, workers),
        Command::Reap => reap_line(text, workers),
        Command::Post => post_line(alloc, text, workers),
        Command::Poll => poll_line(alloc, text, workers),
        Command::Carry => carry_line(text, workers),
        Command::Take => take_line(text, workers),
        Command::Settle => settle_line(text),
        Command::Drop => drop_line(alloc, text, workers),
        Command::Info => info_line(alloc, text, workers),
    }
}

/// A line that isn't too long.
fn written_line(alloc: Global, text: &[u8], workers: u8) -> Result<Line, LineFault>
    ensures { Judged (written_line workers text.now) result }
{
    match text {
        [] | [b'#', ..] => Ok(Line::Blank),
        _ => full_line(alloc, text, workers),
    }
}

/// Reads a line of a script, without its LF, for so many workers.
///
/// A refusal is the lowest rule of docs/SCRIPT.md that the line breaks, of the rules 1 to 9, and its place.
pub fn read_line(alloc: Global, text: &[u8], workers: u8) -> Result<Line, LineFault>
    ensures { Judged (line workers text.now) result }
{
    if text.len() > LONGEST_LINE {
        return Err(LineFault::Rule {
            rule: 1,
            at: LONGEST_LINE,
        });
    }
    written_line(alloc, text, workers)
}

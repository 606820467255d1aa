//! The parts of a line: numbers, workers, quoted texts, names, lists of names and starts.
//!
//! Each function judges one part by its rule, where the earlier parts keep theirs.
ghost use Rattle.std.specs.Prelude.{◌≡◌, ◌≢◌, ◌<◌, ◌≤◌, codes, ℕ, List, length, Option, Some, None};
ghost use Rattle.std.specs.Bool.{Decides};
ghost use Rattle.std.specs.List.{AllByRecursion};
ghost use Rattle.nc_types.specs.Unquote.{IsQuoted};
ghost use Rattle.nc_script.specs.Word.{Word};
ghost use Rattle.nc_script.specs.Judge.{Judged, Finds};
ghost use Rattle.nc_script.specs.Part.{IsNumber, IsName, IsNameByte, number, worker, body, name, names, distinct_names, list, start, start_fault};

use crate::fault::LineFault;
use crate::word::{Pieces, Word};
use nc_ident::{IdRefusal, read_id};
use nc_multi::{ListRefusal, list_of};
use nc_types::text::{UnquoteFault, unquote};
use nc_types::{Bytes, ChanList, List, Start};
use std::alloc::Global;

const MOST_DIGITS: usize = 18;

const LONGEST_BODY: usize = 65_536;

const LONGEST_NAME: usize = 1_024;

const MOST_NAMES: usize = 7;

/// The value of 1 to 18 digits.
fn value(digits: &[u8]) -> Option<u64>
    ensures { Finds (IsNumber digits.now) result }
{
    if digits.is_empty() || digits.len() > MOST_DIGITS {
        return None;
    }
    let mut value = 0u64;
    for byte in digits {
        if !byte.is_ascii_digit() {
            return None;
        }
        value = value * 10 + u64::from(*byte - b'0');
    }
    Some(value)
}

/// A number up to a limit, or rule 4 is broken at the word.
pub(crate) fn number(word: &Word<'_>, limit: u64) -> Result<u64, LineFault>
    ensures { Judged (number limit word.now) result }
{
    match value(word.bytes) {
        Some(n) if n <= limit => Ok(n),
        _ => Err(LineFault::Rule {
            rule: 4,
            at: word.at,
        }),
    }
}

/// A worker's number, or rule 5 is broken at the word.
pub(crate) fn worker(word: &Word<'_>, n: u64, workers: u8) -> Result<u8, LineFault>
    ensures { Judged (worker workers word.now n) result }
{
    if n < u64::from(workers) {
        return Ok(n as u8);
    }
    Err(LineFault::Rule {
        rule: 5,
        at: word.at,
    })
}

fn is_name_byte(byte: u8) -> bool
    ensures { Decides result (IsNameByte byte) }
{
    matches!(byte, 0x21..=0x7E) && !matches!(byte, b'"' | b'\\' | b',')
}

fn are_name_bytes(bytes: &[u8]) -> bool
    ensures { Decides result (AllByRecursion IsNameByte bytes.now) }
{
    for byte in bytes {
        if !is_name_byte(*byte) {
            return false;
        }
    }
    true
}

fn is_name(bytes: &[u8]) -> bool
    ensures { Decides result (IsName bytes.now) }
{
    !bytes.is_empty() && bytes.len() <= LONGEST_NAME && are_name_bytes(bytes)
}

/// A channel's name, or rule 7 is broken at the word.
pub(crate) fn name(alloc: Global, word: &Word<'_>) -> Result<Bytes, LineFault>
    ensures { Judged (name word.now) result }
{
    if !is_name(word.bytes) {
        return Err(LineFault::Rule {
            rule: 7,
            at: word.at,
        });
    }
    let bytes = word.bytes.to_vec(alloc)?;
    Ok(List::of(bytes))
}

/// What a quoted text stands for, or rule 6 is broken.
pub(crate) fn body(alloc: Global, text: &Word<'_>) -> Result<Bytes, LineFault>
    ensures { Judged (body text.now) result }
{
    match unquote(alloc, text.bytes) {
        Ok(bytes) => of_few_bytes(bytes, text),
        Err(UnquoteFault::Bad { at }) => Err(LineFault::Rule {
            rule: 6,
            at: text.at + at,
        }),
        Err(UnquoteFault::NoMemory) => Err(LineFault::NoMemory),
    }
}

/// The bytes that a quoted text stands for, unless they are too many.
fn of_few_bytes(bytes: Bytes, text: &Word<'_>) -> Result<Bytes, LineFault>
    requires { IsQuoted text.now.bytes bytes }
    ensures { Judged (body text.now) result }
{
    if bytes.len() > LONGEST_BODY {
        return Err(LineFault::Rule {
            rule: 6,
            at: text.at,
        });
    }
    Ok(bytes)
}

/// The names of a list, or rule 7 is broken at the first that is none.
fn names(alloc: Global, word: &Word<'_>) -> Result<List<Bytes>, LineFault>
    ensures { Judged (names word.now) result }
{
    let mut names = List::new(alloc);
    let mut pieces = Pieces::of(word.bytes, word.at, b',');
    while let Some(piece) = pieces.next() {
        let name = name(alloc, &piece)?;
        names.push(name)?;
    }
    Ok(names)
}

/// The distinct ones of a list's names, or rule 8 is broken at the list.
fn distinct_names(
    alloc: Global,
    word: &Word<'_>,
    names: &List<Bytes>,
) -> Result<ChanList, LineFault>
    requires { AllByRecursion IsName names.now × (0 < length names.now) }
    ensures { Judged (distinct_names word.now names.now) result }
{
    match list_of(alloc, names.as_slice(), LONGEST_NAME as u32, MOST_NAMES) {
        Ok(list) => Ok(list),
        Err(ListRefusal::NoMemory) => Err(LineFault::NoMemory),
        Err(
            ListRefusal::Empty { .. } | ListRefusal::TooLong { .. } | ListRefusal::TooMany { .. },
        ) => Err(LineFault::Rule {
            rule: 8,
            at: word.at,
        }),
    }
}

/// The channels of a list.
pub(crate) fn list(alloc: Global, word: &Word<'_>) -> Result<ChanList, LineFault>
    ensures { Judged (list word.now) result }
{
    let names = names(alloc, word)?;
    distinct_names(alloc, word, &names)
}

/// The fault of a word that is no id.
fn start_fault(refusal: IdRefusal, word: &Word<'_>) -> LineFault
    ensures { result ≡ start_fault word.now.at refusal }
{
    match refusal {
        IdRefusal::Malformed { .. } | IdRefusal::TagCount { .. } => {
            LineFault::Rule {
                rule: 9,
                at: word.at,
            }
        }
        IdRefusal::NoMemory => LineFault::NoMemory,
    }
}

/// The ids behind which a subscriber of `n` channels begins.
fn given(alloc: Global, word: &Word<'_>, n: usize) -> Result<Start, LineFault>
    requires oldest { word.now.bytes ≢ codes "oldest" }
    requires newest { word.now.bytes ≢ codes "newest" }
    ensures { Judged (start n word.now) result }
{
    match read_id(alloc, word.bytes, n) {
        Ok(cursor) => Ok(Start::Given(cursor)),
        Err(refusal) => Err(start_fault(refusal, word)),
    }
}

/// Where a subscriber of `n` channels begins, or rule 9 is broken at the word.
pub(crate) fn start(alloc: Global, word: &Word<'_>, n: usize) -> Result<Start, LineFault>
    ensures { Judged (start n word.now) result }
{
    match word.bytes {
        b"oldest" => Ok(Start::Oldest),
        b"newest" => Ok(Start::Newest),
        _ => given(alloc, word, n),
    }
}

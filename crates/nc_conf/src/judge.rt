//! Each rule, and the first fault of a text.
ghost use Rattle.std.specs.Prelude.{◌≡◌, [], ◌||◌, Some, None, length, nat_lt, not, slice_get, IfOk};
ghost use Rattle.nc_conf.specs.Config.{has_name};
ghost use Rattle.std.specs.List.{list_any, flat_map};
ghost use Rattle.std.specs.Option.{option_copied, is_some};
ghost use Rattle.nc_conf.specs.Table.{row_of};
ghost use Rattle.nc_conf.specs.First.{first_with, IsFirstFault};
ghost use Rattle.nc_conf.specs.Faults.{kind_of, same_block, is_named, misplaced, is_like, are_enough, repeated, same_bool, too_many, miscounted, is_word, is_again, is_way, is_first_word, is_before_path, is_path_place, breaks_location, breaks, rule_of, bad_args, is_exact, path_of, has_path, is_same_location, again, fault_if, directive_faults, each_directive, has_line, has_role, is_location, nameless, unended, faults_of};
ghost use Rattle.nc_conf.specs.Reader.{words_of, all_faults};
ghost use Rattle.nc_conf.specs.Ways.{ways_with, refuse, KnowsWays};

use crate::fault::{Fault, first_if};
use crate::lines::Lines;
use crate::syntax::{Close, Directive, Reading, Word};
use crate::table::{Block, Row, Shape, row_of};
use crate::value;
use nc_types::NoMemory;
use nc_types::text::begins_slash;
use std::alloc::Global;

/// The kind of the block of that number, or of what is outside of all blocks.
fn kind_of(directives: &[Directive<'_>], within: Option<usize>) -> Option<Block>
    ensures { result ≡ kind_of directives.now within }
{
    let Some(i) = within else {
        return Some(Block::Main);
    };
    let parent = directives.get(i)?;
    let row = row_of(parent.name.text.as_slice())?;
    row.opens
}

fn misplaced(
    first: Option<Fault>,
    directives: &[Directive<'_>],
    row: Row,
    d: &Directive<'_>,
) -> Option<Fault>
    ensures { result ≡ first_with first (misplaced directives.now row d.now) }
{
    let may_stand = match kind_of(directives, d.within) {
        None => false,
        Some(kind) => row.standing.is_in(kind),
    };
    first_if(first, !may_stand, 4, d.name.at)
}

fn repeated<'d, 't>(
    first: Option<Fault>,
    before: &Lines<'d, 't>,
    row: Row,
    d: &'d Directive<'t>,
) -> Option<Fault>
    ensures { result ≡ first_with first (repeated before.now row d.now) }
{
    let are_enough = match row.times {
        None => false,
        Some(times) => times <= before.count(d.within, d.name.text.as_slice()),
    };
    first_if(first, are_enough, 5, d.name.at)
}

fn too_many(first: Option<Fault>, args: &[Word<'_>], most: usize) -> Option<Fault>
    ensures { result ≡ first_with first (too_many (slice_get args.now most)) }
{
    match args.get(most) {
        None => first,
        Some(word) => first_if(first, true, 6, word.at),
    }
}

/// Whether a directive has too few arguments, a block where none belongs, or none where one does.
fn is_short(row: Row, d: &Directive<'_>) -> bool
    ensures { result ≡ nat_lt (length d.now.args) row.least || not (same_bool (is_some row.opens) d.now.block) }
{
    d.args.as_slice().len() < row.least || row.opens.is_some() != d.block
}

fn miscounted(first: Option<Fault>, row: Row, d: &Directive<'_>) -> Option<Fault>
    ensures { result ≡ first_with first (miscounted row d.now) }
{
    let first = too_many(first, d.args.as_slice(), row.most);
    first_if(first, is_short(row, d), 6, d.end)
}

fn is_word(text: &[u8], word: &Word<'_>) -> bool
    ensures { result ≡ is_word text.now word.now }
{
    word.text.as_slice() == text
}

/// Whether a word is among some.
pub fn has_word(words: &[Word<'_>], text: &[u8]) -> bool
    ensures { result ≡ list_any (is_word text.now) words.now }
{
    words.iter().any(|word| is_word(text, word))
}

/// Which ways to subscribe stand among the arguments so far.
#[derive(Clone, Copy)]
struct Ways {
    longpoll: bool,
    websocket: bool,
}

impl Ways {
    fn with(self, word: &Word<'_>) -> Ways
        ensures { result ≡ ways_with self word.now }
    {
        Ways {
            longpoll: self.longpoll || is_word(b"longpoll", word),
            websocket: self.websocket || is_word(b"websocket", word),
        }
    }

    /// Whether a text is no way, or one of these.
    fn refuse(self, text: &[u8]) -> bool
        ensures { result ≡ refuse self text.now }
    {
        if text == b"longpoll".as_slice() {
            self.longpoll
        } else if text == b"websocket".as_slice() {
            self.websocket
        } else {
            true
        }
    }
}

fn is_first_word(text: &[u8]) -> bool
    ensures { result ≡ is_first_word text.now }
{
    text == b"oldest".as_slice() || text == b"newest".as_slice()
}

fn is_before_path(before: &[Word<'_>], later: &[Word<'_>]) -> bool
    ensures { result ≡ is_before_path before.now later.now }
{
    match (before, later) {
        ([], [_, ..]) => true,
        _ => false,
    }
}

fn is_path_place(before: &[Word<'_>]) -> bool
    ensures { result ≡ is_path_place before.now }
{
    match before {
        [_, _, ..] => false,
        _ => true,
    }
}

fn breaks_location(before: &[Word<'_>], text: &[u8], later: &[Word<'_>]) -> bool
    ensures { result ≡ breaks_location before.now text.now later.now }
{
    if is_before_path(before, later) {
        text != b"=".as_slice()
    } else {
        is_path_place(before) && !begins_slash(text)
    }
}

/// Whether an argument breaks the rule of its shape, between those before and behind it.
fn breaks(shape: Shape, before: &[Word<'_>], ways: Ways, text: &[u8], later: &[Word<'_>]) -> bool
    requires { KnowsWays ways before.now }
    ensures { result ≡ breaks shape before.now text.now later.now }
{
    match shape {
        Shape::Nothing => false,
        Shape::Number { low, high } => value::number(low, high, text).is_none(),
        Shape::Address => value::address_of(text).is_none(),
        Shape::Seconds => value::seconds(text).is_none(),
        Shape::Size => value::size(text).is_none(),
        Shape::HttpWord => text != b"http".as_slice(),
        Shape::Ways => ways.refuse(text),
        Shape::First => !is_first_word(text),
        Shape::ChannelId => !value::is_id(text),
        Shape::Path => breaks_location(before, text, later),
    }
}

fn rule_of(shape: Shape) -> u8
    ensures { result ≡ rule_of shape }
{
    match shape {
        Shape::Nothing => 6,
        Shape::Number { .. } | Shape::Address => 7,
        Shape::Seconds => 8,
        Shape::Size => 9,
        Shape::HttpWord | Shape::Ways | Shape::First => 10,
        Shape::ChannelId => 11,
        Shape::Path => 12,
    }
}

fn bad_arg(
    first: Option<Fault>,
    shape: Shape,
    before: &[Word<'_>],
    ways: Ways,
    word: &Word<'_>,
    later: &[Word<'_>],
) -> Option<Fault>
    requires { KnowsWays ways before.now }
    ensures { result ≡ first_with first (fault_if (breaks shape before.now word.now.text later.now) (rule_of shape) word.now.at) }
{
    let broken = breaks(shape, before, ways, word.text.as_slice(), later);
    first_if(first, broken, rule_of(shape), word.at)
}

fn bad_args(first: Option<Fault>, shape: Shape, args: &[Word<'_>]) -> Option<Fault>
    ensures { result ≡ first_with first (bad_args shape [] args.now) }
{
    let mut first = first;
    let mut ways = Ways {
        longpoll: false,
        websocket: false,
    };
    for (i, word) in args.iter().enumerate() {
        first = bad_arg(first, shape, &args[..i], ways, word, &args[i + 1..]);
        ways = ways.with(word);
    }
    first
}

/// Whether a location has an `=` before its path.
pub fn is_exact(args: &[Word<'_>]) -> bool
    ensures { result ≡ is_exact args.now }
{
    match args {
        [_, _, ..] => true,
        _ => false,
    }
}

/// The path among the words of a location.
pub fn path_of<'w, 't>(args: &'w [Word<'t>]) -> Option<&'w Word<'t>>
    ensures { option_copied result ≡ path_of args.now }
{
    match args {
        [] => None,
        [word] => Some(word),
        [_, word, ..] => Some(word),
    }
}

fn again<'d, 't>(
    first: Option<Fault>,
    before: &Lines<'d, 't>,
    row: Row,
    d: &'d Directive<'t>,
) -> Option<Fault>
    requires { row_of d.now.name.text ≡ Some row }
    ensures { result ≡ first_with first (again before.now row.shape d.now) }
{
    let Shape::Path = row.shape else {
        return first;
    };
    let args = d.args.as_slice();
    match path_of(args) {
        None => first,
        Some(path) => {
            let broken = before.has_location(is_exact(args), d.within, path.text.as_slice());
            first_if(first, broken, 13, path.at)
        }
    }
}

/// The first of the faults so far and those of a directive, after those before it.
fn judge<'d, 't>(
    first: Option<Fault>,
    directives: &[Directive<'_>],
    before: &Lines<'d, 't>,
    d: &'d Directive<'t>,
) -> Option<Fault>
    ensures { result ≡ first_with first (directive_faults directives.now before.now d.now) }
{
    let Some(row) = row_of(d.name.text.as_slice()) else {
        return first_if(first, true, 3, d.name.at);
    };
    let first = misplaced(first, directives, row, d);
    let first = repeated(first, before, row, d);
    let first = miscounted(first, row, d);
    let first = bad_args(first, row.shape, d.args.as_slice());
    again(first, before, row, d)
}

/// Whether the last directive repeats the one before it, where one alone may stand.
fn is_repeated(directives: &[Directive<'_>], row: Row) -> bool {
    match directives {
        [.., before, last] => {
            row.times == Some(1)
                && before.within == last.within
                && has_name(before.name.text.as_slice(), last)
        }
        _ => false,
    }
}

/// Whether the last directive breaks a rule, as far as it tells without a table of those before it.
pub fn is_doubtful(directives: &[Directive<'_>]) -> bool {
    let Some(d) = directives.last() else {
        return false;
    };
    let Some(row) = row_of(d.name.text.as_slice()) else {
        return true;
    };
    is_repeated(directives, row)
        || misplaced(None, directives, row, d).is_some()
        || miscounted(None, row, d).is_some()
        || bad_args(None, row.shape, d.args.as_slice()).is_some()
}

/// The first fault of directives, and the directives, to be looked up by block and name.
#[derive(Drop)]
pub struct Judged<'d, 't> {
    pub first: Option<Fault>,
    pub lines: Lines<'d, 't>,
}

fn judge_each<'d, 't>(
    alloc: Global,
    directives: &'d [Directive<'t>],
) -> Result<Judged<'d, 't>, NoMemory>
    ensures first { IfOk result (λ j. j.first ≡ first_with None (each_directive directives.now [] directives.now)) }
    ensures lines { IfOk result (λ j. j.lines ≡ directives.now) }
{
    let mut first = None;
    let mut lines = Lines::new(alloc);
    for d in directives {
        first = judge(first, directives, &lines, d);
        lines = lines.with(d)?;
    }
    Ok(Judged { first, lines })
}

fn has_role(lines: &Lines<'_, '_>, block: usize) -> bool
    ensures { result ≡ has_role lines.now block }
{
    lines.has(block, b"nchan_publisher")
        || lines.has(block, b"nchan_subscriber")
        || lines.has(block, b"nchan_pubsub")
}

/// Whether a directive has this name.
pub fn has_name(name: &[u8], d: &Directive<'_>) -> bool
    ensures { result ≡ has_name name.now d.now }
{
    d.name.text.as_slice() == name
}

fn is_location(directive: Option<&Directive<'_>>) -> bool
    ensures { result ≡ is_location (option_copied directive.entry) }
{
    match directive {
        None => false,
        Some(d) => d.name.text.as_slice() == b"location".as_slice(),
    }
}

fn nameless(
    first: Option<Fault>,
    directives: &[Directive<'_>],
    lines: &Lines<'_, '_>,
    close: &Close,
) -> Option<Fault>
    requires { lines.now ≡ directives.now }
    ensures { result ≡ first_with first (nameless lines.now close.now) }
{
    let broken = is_location(directives.get(close.of))
        && has_role(lines, close.of)
        && !lines.has(close.of, b"nchan_channel_id");
    first_if(first, broken, 14, close.at)
}

fn first_of_closes(
    first: Option<Fault>,
    directives: &[Directive<'_>],
    lines: &Lines<'_, '_>,
    closes: &[Close],
) -> Option<Fault>
    requires { lines.now ≡ directives.now }
    ensures { result ≡ first_with first (flat_map (nameless lines.now) closes.now) }
{
    let mut first = first;
    for close in closes {
        first = nameless(first, directives, lines, close);
    }
    first
}

fn unended(first: Option<Fault>, len: usize, reading: &Reading<'_>) -> Option<Fault>
    ensures { result ≡ first_with first (unended len reading.now.syntax.blocks
        (words_of reading.now.syntax.begun) reading.now.syntax.broken reading.now.bad) }
{
    let syntax = &reading.syntax;
    if let Some(at) = syntax.broken {
        return first_if(first, true, 2, at);
    }
    if let Some(at) = reading.bad {
        return first_if(first, true, 1, at);
    }
    let broken = syntax.begun.is_some() || !syntax.blocks.is_empty();
    first_if(first, broken, 2, len)
}

/// The first fault of a text of some bytes, and its directives.
pub fn judge_all<'r, 't>(
    alloc: Global,
    len: usize,
    reading: &'r Reading<'t>,
) -> Result<Judged<'r, 't>, NoMemory>
    ensures first { IfOk result (λ j. IsFirstFault (all_faults len reading.now.syntax reading.now.bad) j.first) }
    ensures lines { IfOk result (λ j. j.lines ≡ reading.now.syntax.directives) }
{
    let directives = reading.syntax.directives();
    let Judged { first, lines } = judge_each(alloc, directives)?;
    let first = first_of_closes(first, directives, &lines, reading.syntax.closes());
    let first = unended(first, len, reading);
    Ok(Judged { first, lines })
}

//! The directives of a text, with a table that finds those of a name in a block.
//!
//! No directive is looked for among all the others, so the time to put in n directives grows as n log n.
//! Below are the directives; the rules and the configuration stand above.
ghost use Rattle.std.specs.Prelude.{◌≡◌, ◌+◌, ◌<◌, ◌^◌, ◌++◌, ◌∷◌, [], List, length, count_by, IfOk, IfSome, OnOk};
ghost use Rattle.std.specs.List.{list_any};
ghost use Rattle.std.specs.Option.{option_copied};
ghost use Rattle.nc_conf.specs.Faults.{is_named, has_line};
ghost use Rattle.nc_conf.specs.Config.{line_in, value, value_of};
ghost use Rattle.nc_conf.specs.Lines.{entry_with, path_at, is_location_at, KnowsPaths};

use crate::judge::{has_name, is_exact, path_of};
use crate::syntax::{Directive, Word};
use crate::table::{Shape, row_of};
use crate::value;
use nc_types::NoMemory;
use std::alloc::Global;
use std::collections::{BTreeMap, BTreeSet};
use std::marker::Model;

/// A block, and a name or a path in it.
#[derive(PartialEq, Eq, PartialOrd, Ord, Clone, Copy)]
struct Key<'d> {
    block: Option<usize>,
    text: &'d [u8],
}

/// A directive and the number that it sets, which is read once. Contracts see the directive.
#[derive(Drop)]
pub struct Line<'d, 't> {
    directive: &'d Directive<'t>,
    number: Option<u32>,
}

impl<'d, 't> Model for Line<'d, 't> {
    ghost use Rattle.std.specs.Prelude.{◌≡◌};
    ghost use Rattle.nc_conf.specs.declared.syntax.Directive.{Directive as Seen};
    ghost use Rattle.nc_conf.specs.Config.{value_of};

    ghost Value = { Seen };

    ghost view = { λ line. line.directive.now };

    ghost invariant = { λ line. line.number ≡ value_of line.directive.now };
}

/// The number that an argument of a shape stands for.
fn value(shape: Shape, text: &[u8]) -> Option<u32>
    ensures { result ≡ value shape text.now }
{
    match shape {
        Shape::Number { low, high } => value::number(low, high, text),
        Shape::Seconds => value::seconds(text),
        Shape::Size => value::size(text),
        _ => None,
    }
}

/// The number that a directive sets.
fn value_of(d: &Directive<'_>) -> Option<u32>
    ensures { result ≡ value_of d.now }
{
    let row = row_of(d.name.text.as_slice())?;
    match d.args.as_slice() {
        [] => None,
        [word, ..] => value(row.shape, word.text.as_slice()),
    }
}

impl<'d, 't> Line<'d, 't> {
    fn new(directive: &'d Directive<'t>) -> Line<'d, 't>
        ensures { result ≡ directive.now }
    {
        Line {
            directive,
            number: value_of(directive),
        }
    }

    fn copied(&self) -> Line<'d, 't>
        ensures { result ≡ self.now }
    {
        Line {
            directive: self.directive,
            number: self.number,
        }
    }

    pub fn directive(&self) -> &'d Directive<'t>
        ensures { result.now ≡ self.now }
    {
        self.directive
    }

    /// The number that it sets, if it can be read.
    pub fn number(&self) -> Option<u32>
        ensures { result ≡ value_of self.now }
    {
        self.number
    }
}

/// What is known of the directives of one name in one block.
#[derive(Drop)]
struct Entry<'d, 't> {
    first: Line<'d, 't>,
    count: usize,
}

fn entry_with<'d, 't>(known: Option<&Entry<'d, 't>>, d: &'d Directive<'t>) -> Entry<'d, 't>
    requires { IfSome (option_copied known) (λ e. e.count + 1 < 2 ^ 64) }
    ensures { result ≡ entry_with (option_copied known.entry) d.now }
{
    match known {
        None => Entry {
            first: Line::new(d),
            count: 1,
        },
        Some(entry) => Entry {
            first: entry.first.copied(),
            count: entry.count + 1,
        },
    }
}

/// The path of a location with an `=`, or of one without.
fn path_at<'w, 't>(exact: bool, d: &'w Directive<'t>) -> Option<&'w Word<'t>>
    ensures { option_copied result ≡ path_at exact d.now }
{
    let args = d.args.as_slice();
    if has_name(b"location", d) && is_exact(args) == exact {
        path_of(args)
    } else {
        None
    }
}

/// Adds the path of a directive that is a location with an `=`, or one without.
fn add_path<'d, 't>(
    exact: bool,
    paths: &mut BTreeSet<Key<'d>>,
    d: &'d Directive<'t>,
) -> Result<(), NoMemory>
    ensures { OnOk result ((ds : List Directive) → KnowsPaths exact ds paths.old → KnowsPaths exact (ds ++ d.now ∷ []) paths.new) }
{
    if let Some(path) = path_at(exact, d) {
        paths.insert(Key {
            block: d.within,
            text: path.text.as_slice(),
        })?;
    }
    Ok(())
}

/// Directives in their order, which contracts see as the list of them.
#[derive(Drop)]
pub struct Lines<'d, 't> {
    directives: Vec<&'d Directive<'t>>,
    /// The directives of each name in each block.
    entries: BTreeMap<Key<'d>, Entry<'d, 't>>,
    /// The paths of locations with an `=`.
    exact: BTreeSet<Key<'d>>,
    /// The paths of locations without one.
    prefixes: BTreeSet<Key<'d>>,
}

impl<'d, 't> Model for Lines<'d, 't> {
    ghost use Rattle.std.specs.Prelude.{List, map, true, false};
    ghost use Rattle.nc_conf.specs.declared.syntax.Directive.{Directive as Seen};
    ghost use Rattle.nc_conf.specs.Lines.{KnowsLines, KnowsPaths};

    ghost Value = { List Seen };

    ghost view = { λ lines. map (λ d. d.now) lines.directives.items };

    ghost invariant = { λ lines. KnowsLines (map (λ d. d.now) lines.directives.items) lines.entries
        × KnowsPaths true (map (λ d. d.now) lines.directives.items) lines.exact
        × KnowsPaths false (map (λ d. d.now) lines.directives.items) lines.prefixes };
}

impl<'d, 't> Lines<'d, 't> {
    /// No directives, with memory from `alloc`.
    pub fn new(alloc: Global) -> Lines<'d, 't>
        ensures { result ≡ [] }
    {
        Lines {
            directives: Vec::new(alloc),
            entries: BTreeMap::new(alloc),
            exact: BTreeSet::new(alloc),
            prefixes: BTreeSet::new(alloc),
        }
    }

    /// The first directive of a name in a block.
    pub fn first(&self, block: Option<usize>, name: &'d [u8]) -> Option<&Line<'d, 't>>
        ensures { option_copied result ≡ line_in self.now block name.now }
    {
        let entry = self.entries.get(&Key { block, text: name })?;
        Some(&entry.first)
    }

    /// Whether a directive of a name stands in a block.
    pub fn has(&self, block: usize, name: &'d [u8]) -> bool
        ensures { result ≡ has_line self.now block name.now }
    {
        self.first(Some(block), name).is_some()
    }

    /// How many directives of a name stand in a block.
    pub fn count(&self, block: Option<usize>, name: &'d [u8]) -> usize
        ensures { result ≡ count_by (is_named block name.now) self.now }
    {
        match self.entries.get(&Key { block, text: name }) {
            None => 0,
            Some(entry) => entry.count,
        }
    }

    /// Whether a location of a path stands in a block, with an `=` or without.
    pub fn has_location(&self, exact: bool, block: Option<usize>, path: &'d [u8]) -> bool
        ensures { result ≡ list_any (is_location_at exact block path.now) self.now }
    {
        let key = Key { block, text: path };
        if exact {
            self.exact.contains(&key)
        } else {
            self.prefixes.contains(&key)
        }
    }

    /// The directives and one more behind them.
    pub fn with(self, d: &'d Directive<'t>) -> Result<Lines<'d, 't>, NoMemory>
        requires { length self + 1 < 2 ^ 64 }
        ensures { IfOk result (λ lines. lines ≡ self.entry ++ d.now ∷ []) }
    {
        let Lines {
            mut directives,
            mut entries,
            mut exact,
            mut prefixes,
        } = self;
        directives.push(d)?;
        let key = Key {
            block: d.within,
            text: d.name.text.as_slice(),
        };
        let entry = entry_with(entries.get(&key), d);
        entries.insert(key, entry)?;
        add_path(true, &mut exact, d)?;
        add_path(false, &mut prefixes, d)?;
        Ok(Lines {
            directives,
            entries,
            exact,
            prefixes,
        })
    }
}

//! A tree of marks, by which what is sought among many slots is found by halves.
ghost use Rattle.std.specs.Prelude.{◌≡◌, ℕ, List, ◌+◌, ◌<◌, ◌≤◌, ◌*◌, ◌^◌, length, drop, replicate, slice_set, true, [], Some, None, IfOk, IfSome, MatchOption};
ghost use Rattle.std.specs.List.{position};
ghost use Rattle.nc_buffer.specs.Marks.{no_mark, tells, mark_at, kept_before, Shows};
ghost use Rattle.nc_buffer.specs.Trees.{IsTree};

use crate::entry::Entry;
use crate::mark::{Mark, Sought};
use nc_types::NoMemory;
use std::alloc::Global;
use std::marker::Model;

/// A leaf that was found, and how many entries are kept before it.
#[derive(Clone, Copy)]
pub(crate) struct Found {
    pub leaf: usize,
    pub place: usize,
}

/// The first leaf whose mark tells of what is sought, in a tree whose root tells of it.
fn first_leaf(marks: &[Mark], width: usize, height: u32, sought: &Sought) -> Found
    requires tree { IsTree marks.now width height }
    requires width { width ≡ 2 ^ height }
    requires told { tells sought.now (mark_at marks.now 1) ≡ true }
    ensures leaf { position (tells sought.now) (drop width marks.now) ≡ Some result.leaf }
    ensures place { result.place ≡ kept_before result.leaf (drop width marks.now) }
{
    let mut node = 1;
    let mut place = 0;
    for level in 0..height {
        node = 2 * node;
        if !sought.is_told(&marks[node]) {
            place += marks[node].kept;
            node += 1;
        }
    }
    Found {
        leaf: node - width,
        place,
    }
}

/// The leaf of the entry before which so many are kept.
fn leaf_at(marks: &[Mark], width: usize, height: u32, place: usize) -> usize
    requires tree { IsTree marks.now width height }
    requires width { width ≡ 2 ^ height }
    requires place { place < (mark_at marks.now 1).kept }
    ensures within { result < width }
    ensures before { kept_before result (drop width marks.now) ≤ place }
    ensures behind { place < kept_before (result + 1) (drop width marks.now) }
{
    let mut node = 1;
    let mut rest = place;
    for level in 0..height {
        node = 2 * node;
        let kept = marks[node].kept;
        if rest >= kept {
            rest -= kept;
            node += 1;
        }
    }
    node - width
}

/// Puts a mark at a leaf, and sums up the marks above it, up to the root.
fn put_up(marks: &mut [Mark], width: usize, height: u32, leaf: usize, mark: Mark)
    requires tree { IsTree marks.old width height }
    requires width { width ≡ 2 ^ height }
    requires leaf { leaf < width }
    requires one { mark.kept ≤ 1 }
    ensures tree { IsTree marks.new width height }
    ensures leaves { drop width marks.new ≡ slice_set (drop width marks.old) leaf mark }
{
    let mut node = width + leaf;
    marks[node] = mark;
    for level in 0..height {
        node /= 2;
        marks[node] = Mark::both(&marks[2 * node], &marks[2 * node + 1]);
    }
}

/// The marks of slots, which contracts see as the list of its leaves.
///
/// Each step down from the root leaves half of the leaves behind.
#[derive(Drop)]
pub(crate) struct Tree {
    marks: Vec<Mark>,
    width: usize,
    height: u32,
}

impl Model for Tree {
    ghost use Rattle.std.specs.Prelude.{List as Items, drop};
    ghost use Rattle.nc_buffer.specs.declared.mark.Mark.{Mark as MarkAt};
    ghost use Rattle.nc_buffer.specs.Trees.{IsTree};

    ghost Value = { Items MarkAt };

    ghost view = { λ t. drop t.width t.marks.items };

    ghost invariant = { λ t. IsTree t.marks.items t.width t.height };
}

/// A tree with so many leaves, of slots that keep nothing.
fn blank(alloc: Global, width: usize, height: u32) -> Result<Tree, NoMemory>
    requires width { width ≡ 2 ^ height }
    requires fits { 2 * width < 18446744073709551616 }
    ensures { IfOk result (λ tree. tree ≡ replicate width no_mark) }
{
    let marks = vec![in alloc; Mark::none(); 2 * width]?;
    Ok(Tree {
        marks,
        width,
        height,
    })
}

impl Tree {
    /// A tree without leaves, which takes its memory from `alloc`.
    pub(crate) fn new(alloc: Global) -> Tree
        ensures { result ≡ [] }
    {
        Tree {
            marks: Vec::new(alloc),
            width: 0,
            height: 0,
        }
    }

    /// How many leaves there are.
    pub(crate) fn len(&self) -> usize
        ensures { result ≡ length self.now }
    {
        self.width
    }

    /// How many entries are kept.
    pub(crate) fn kept(&self) -> usize
        ensures { result ≡ kept_before (length self.now) self.now }
    {
        match self.marks.get(1) {
            Some(root) => root.kept,
            None => 0,
        }
    }

    /// A tree of slots that keep nothing, with more leaves than so many, which are at most those of this one.
    ///
    /// It is as wide as this one where that is twice as many, and else of double width.
    pub(crate) fn fresh(&self, kept: usize) -> Result<Tree, NoMemory>
        requires { kept ≤ length self.now }
        ensures room { IfOk result (λ tree. kept < length tree) }
        ensures nothing { IfOk result (λ tree. Shows [] tree) }
    {
        let alloc = *self.marks.allocator();
        if self.width == 0 {
            return blank(alloc, 4, 2);
        }
        if kept <= self.width / 2 {
            return blank(alloc, self.width, self.height);
        }
        blank(alloc, 2 * self.width, self.height + 1)
    }

    /// The first leaf whose mark tells of what is sought, if there is one.
    pub(crate) fn first(&self, sought: &Sought) -> Option<Found>
        ensures leaf { MatchOption result (position (tells sought.now) self.now ≡ None) (λ found. position (tells sought.now) self.now ≡ Some found.leaf) }
        ensures place { IfSome result (λ found. found.place ≡ kept_before found.leaf self.now) }
    {
        let root = self.marks.get(1)?;
        if !sought.is_told(root) {
            return None;
        }
        Some(first_leaf(&self.marks, self.width, self.height, sought))
    }

    /// The leaf of the entry before which so many are kept.
    pub(crate) fn leaf_of(&self, place: usize) -> usize
        requires { place < kept_before (length self.now) self.now }
        ensures within { result < length self.now }
        ensures before { kept_before result self.now ≤ place }
        ensures behind { place < kept_before (result + 1) self.now }
    {
        leaf_at(&self.marks, self.width, self.height, place)
    }

    /// Puts a mark at a leaf.
    pub(crate) fn put(&mut self, leaf: usize, mark: Mark)
        requires leaf { leaf < length self.old }
        requires one { mark.kept ≤ 1 }
        ensures { self.new ≡ slice_set self.old leaf mark }
    {
        put_up(&mut self.marks, self.width, self.height, leaf, mark);
    }

    /// The tree with the marks of slots put at its first leaves.
    pub(crate) fn filled(mut self, slots: &[Option<Entry>]) -> Tree
        requires blank { Shows [] self }
        requires room { length slots.now ≤ length self }
        ensures shown { Shows slots.now result }
        ensures len { length result ≡ length self }
    {
        for (leaf, slot) in slots.iter().enumerate() {
            self.put(leaf, Mark::of_slot(slot));
        }
        self
    }
}

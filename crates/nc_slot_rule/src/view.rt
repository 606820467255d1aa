//! What a seat at the words of slots knows.
use nc_slots::Slot;
use std::collections::LinkedList;

/// What a seat knows: its slots as their owner, from the word `first` on, a grant that isn't split off yet, and a live
/// hold, each by the number of its word. Each owner has `per` slots. No value of it is made.
pub struct Seen {
    pub per: u64,
    pub first: u64,
    pub row: LinkedList<Slot<()>>,
    pub granting: Option<u64>,
    pub hold: Option<u64>,
}

/// How many slots each owner has, and how many words there are.
#[derive(Clone, Copy)]
pub struct Size {
    pub per: u64,
    pub words: u64,
}

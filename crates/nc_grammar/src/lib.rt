//! Readers of texts that carry the place where reading stops.
//!
//! Below stands `nc_types`. The crates that read lines of a journal, ids and scripts stand on this one.
//! A set of texts is a relation of values and texts (`specs/Exact.antt`). A reader takes a value from the front of a text,
//! and its contract says what it finds by a definition of `specs/`; `laws` says that each of these is right for its set.
//! The lemmas of `proofs/` put readers together: one behind another, lists, choices, rows of fields behind labels.
#![tactic(auto)]

mod fault;
mod laws;
mod numbers;
mod quotes;
mod reader;
mod words;

pub use fault::{Fault, Unread};
pub use laws::{
    digits_are_read, labels_are_read, numbers_are_read, quoted_texts_are_read, stops_at_the_place,
    words_are_read,
};
pub use reader::Reader;

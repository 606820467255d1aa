//! Ids, tags and dates as texts, written and read.
//!
//! `nc_types` has the ids and cursors, and `nc_grammar` reads from left to right; dates are those of the crate `httpdate`.
//! What a text spells is defined in `specs/`, and `laws` says what follows from it.
#![tactic(auto)]

mod date;
pub mod laws;
mod read;
mod refusal;
mod spell;

pub use date::{read_date, spell_date};
pub use read::{read_id, read_tags};
pub use refusal::IdRefusal;
pub use spell::{spell_id, spell_tags};

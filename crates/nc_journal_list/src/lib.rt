//! Lists of channels in the lines of a journal, read back: no name stands in one twice.
//!
//! Below stands `nc_grammar`, the readers of texts; above stands `nc_journal_read`, which reads whole lines.
#![tactic(auto)]

mod list_reading;

pub use list_reading::{list, optional_list};

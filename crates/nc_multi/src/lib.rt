//! The channels of a subscriber: a list of names without repeats.
//!
//! Whoever reads the names of a request or of a script stands above. Below are the names and lists of `nc_types`.
//! What a list of names keeps, and when there is none, is defined in `specs/`.
#![tactic(auto)]

mod list;

pub use list::{ListRefusal, list_of};

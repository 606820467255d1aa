//! The configuration of a text, or its first fault.
//!
//! Below are the tokens of `nc_conf_lex` and the types of `nc_types`; the program stands above.
//! `specs/` defines what the directives of a text are, which of the rules a text breaks first, and what it configures.
#![tactic(auto)]

mod config;
mod fault;
mod judge;
pub mod laws;
mod lines;
mod read;
mod syntax;
mod table;
mod value;

pub use read::{ConfFault, read_config};

//! The lines of a script, read and judged.
//!
//! Each line says something or breaks one of the rules of docs/SCRIPT.md at a place; `specs/` defines both.
//! Below stand nc_types, nc_ident and nc_multi; above stands the replay.
#![tactic(auto)]

mod command;
mod fault;
pub mod laws;
mod line;
mod part;
mod place;
mod read;
mod split;
mod word;

pub use fault::LineFault;
pub use line::Line;
pub use place::place_of;
pub use read::read_line;

//! The commands: a script comes in, its lines are made, and the journal goes out; or a configuration is judged.
//!
//! Below stand `nc_cluster` with its workers of `nc_crew`, which make the lines, and `nc_cli`, `nc_conf`, `nc_script`,
//! `nc_journal`, `nc_outside` and `nc_types`; above stands the program.
#![tactic(auto)]

mod answer;
mod check;
mod command;
mod fault;
mod input;
mod laws;
mod load;
mod making;
mod plan;
mod script;

pub use command::{replay, top};
pub use laws::{one_configuration, one_end};

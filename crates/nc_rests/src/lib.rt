//! What a place of a spool rests on: a look of its channel's owner, with what was found at it or since, and how that stays so
//! while histories go on. There is no code here: each function does nothing, and its contract is a law.
//!
//! Below are the packets between two workers (`nc_history`), what an owner keeps (`nc_owner_laws`) and the places of spools as
//! data (`nc_spool_state`). Above stands what is sent lawfully from such places.
#![tactic(auto)]

pub mod asking;
pub mod holding;
pub mod keeping;
pub mod standing;

//! What is sent lawfully: a spool whose places rest sends what it chooses, that stays lawful whatever is stored later, and fences
//! stay. There is no code here: each function does nothing, and its contract is a law.
//!
//! Below is what places rest on (`nc_rests`). Nothing is remembered of a send: each event is good when it is made, by what
//! stands before it, and these laws say what follows for whole histories.
#![tactic(auto)]

pub mod gluing;
pub mod sending;

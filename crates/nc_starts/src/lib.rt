//! Where subscribers start: before every message, at a given cursor, or behind the newest messages of a list by its edges. There is
//! no code here: each function does nothing, and its contract is a law.
//!
//! Below is what owners tell and keep (`nc_rests`). Nothing is remembered of a start: each is good when it is made, by what stands
//! before it, and stays lawful whatever is stored later.
#![tactic(auto)]

pub mod starting;
pub mod telling;

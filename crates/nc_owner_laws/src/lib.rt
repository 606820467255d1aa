//! What holds of an owner's steps, told of their pure functions. There is no code here: each function does nothing, and its contract is a law.
//!
//! Below is `nc_owner`, whose calls do what these pure functions say, and the definitions of histories in `nc_journal`.
//! Whoever proves what holds of whole histories stands above: `standing` has all of it together, and `places` what each look and number in such a history tells.
#![tactic(auto)]

mod answers;
mod ascending;
mod beside;
mod counts;
mod fencing;
mod filters;
mod holds;
mod keeping;
mod leaving_rule;
mod of_owner;
mod places;
mod reaping;
mod refusals;
mod removing;
mod slot_rule;
mod slots;
mod stages;
mod stamps;
mod standing;
mod telling;
mod waking;

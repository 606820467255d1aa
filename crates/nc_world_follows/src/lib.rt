//! The journal of a script: the owners' steps stand in it, subscribers are ended by deletions as their workers take the alerts that
//! tell so, and it follows the script's lines.
//!
//! All this is told by the journal alone (`nc_world/specs/OwnersRule` and `Follows`, `nc_history/specs/Ending`). Here it is proved that the journal which the
//! pure world makes of lines is so. Each law is a public function with an empty body. Below are the laws of reached worlds.
#![tactic(auto)]

pub mod journal;

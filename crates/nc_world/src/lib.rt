//! The pure world: all workers of a replay with their slots and rings, and what each move and each line of a script makes of them.
//!
//! Here stand definitions: worlds, moves, worlds that are reached with a history, and, over a journal alone, the rule of the
//! owners' steps and how a journal follows a script. `nc_worker` and `nc_cluster` are proved equal to the pure steps; the laws
//! of reached worlds stand in `nc_world_laws` and the crates above it. Below is the pure step of one worker.
#![tactic(auto)]

pub mod histories;

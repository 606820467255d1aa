//! The look that a place awaits is on its way, or its answer is; and so at quiet nobody who stands lacks a buffered message. There
//! is no code here: each function does nothing, and its contract is a law.
//!
//! Below are looks and their answers (`nc_world_looks`) and the places of reached worlds (`nc_world_places`).
#![tactic(auto)]

pub mod awaiting;
pub mod resting;

//! What holds of the spools of a worker, told of their pure steps. There is no code here: each function does nothing, and its
//! contract is a law.
//!
//! The laws speak of one call after the other: of what stands between two calls ([`standing`], [`counting`], [`resting`],
//! [`holding`], [`sound`]), of what each place knows ([`knowing`]), and of the rules by which spools are entered, ask and send
//! ([`asking`], [`sending`]). One induction over the small steps carries them (`proofs/Closing`). Below is `nc_spool`.
#![tactic(auto)]

pub mod asking;
pub mod counting;
pub mod holding;
pub mod knowing;
pub mod resting;
pub mod sending;
pub mod sound;
pub mod standing;

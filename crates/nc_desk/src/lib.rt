//! A worker's own requests and subscribers.
//!
//! [`Desk`] takes what comes to a worker directly and what owners answer it, and has told what that leads to. Requests wait
//! there for their answers, and the spools of subscribers keep holds until nobody uses them; [`release_idle`] gives those back.
//! A worker stands above, beside its owner. Below are the spools of `nc_spool` and the scribe of `nc_scribe`.
//! Each call is a pure step of `nc_worker_state`, where holds are forgotten.
#![tactic(auto)]

mod desk;
mod hearing;
mod opening;
mod release;

pub use desk::Desk;
pub use release::release_idle;

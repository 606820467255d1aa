//! A worker: one input after the other is handled, and each handling is a pure step.
//!
//! [`Worker`] joins the owner of its channels with the desk of its own subscribers and requests. An input is a packet of a
//! worker or something from outside; what it leads to is told as events, and what it makes waits until it is carried.
//! A cluster of workers stands above. Below are `nc_owned`, `nc_desk` and the scribe of `nc_scribe`.
//! That a handling is the pure step of `nc_worker_state` is the contract of [`Worker::handle`].
#![tactic(auto)]

mod parts;
mod step;
mod worker;

pub use worker::{HandleRefusal, Worker};

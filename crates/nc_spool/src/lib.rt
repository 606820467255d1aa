//! The spools of a worker, call by call: who comes and goes, what is heard, and what is sent to whom.
//!
//! [`Spools`] is the subscriber's half of a worker. A call takes what came in (a subscriber, an owner's answer, a notice, a
//! removal) and gives the [`Fact`]s that it leads to, in order: what is asked of owners, who is started, what is sent and who
//! is ended. Nothing is written and nothing is sent here; the worker above does it. Each call is a pure step of `specs/`,
//! in its facts and in the state after. The data lie below, in `nc_spool_state`, and alerts in `nc_alert`.
#![tactic(auto)]

mod arrive;
mod ask;
mod board;
mod decide;
mod depart;
mod fact;
mod hear;
mod newest;
mod spools;

pub use ask::{Ask, Asking};
pub use board::Board;
pub use decide::Delivery;
pub use fact::{Fact, Sending};
pub use spools::{Found, Spools};

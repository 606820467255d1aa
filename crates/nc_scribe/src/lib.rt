//! The scribe of a worker: it writes down what a step does, as events, and puts what is made into the outboxes.
//!
//! [`Scribe`] tells events one behind the other. Each alert becomes a packet and a `made` event under one number. What an
//! owner did is told in one weave, behind each grant the making of the alert that carries it, and what spools did fact by fact.
//! A worker stands above; outboxes lie below. What is told of a step is defined in `specs/`, over the deeds of `nc_worker_state`.
#![tactic(auto)]

mod facts;
mod scribe;
mod weave;

pub use scribe::Scribe;

//! The crew of a floor: workers over the slots of one thread.
//!
//! [`Crewman`] is a [`Worker`](nc_worker::Worker) of `nc_worker` whose slots one thread uses, as the floor of `nc_floor` calls
//! on it. A cluster stands above. That it handles what comes as the pure step does is the contract of `Hand`.
#![tactic(auto)]

mod crewman;

pub use crewman::Crewman;

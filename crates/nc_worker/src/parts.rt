//! The parts of a worker, on which its steps work.
use nc_desk::Desk;
use nc_owner::Owner;
use nc_scribe::Scribe;

/// The owner of the worker's channels, its own requests and subscribers, and what it tells.
#[derive(Drop)]
pub(crate) struct Parts<H> {
    pub owner: Owner,
    pub desk: Desk<H>,
    pub scribe: Scribe<H>,
}

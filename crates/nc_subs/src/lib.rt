//! The subscribers of a worker, by their numbers: what each asked for, and which of them are due.
//!
//! [`Subs`] keeps a [`Sub`] for each subscriber, from its coming to its end. Where it stands in its channels is no matter of
//! this crate but of the spools. Below is `nc_types`.
#![tactic(auto)]

mod sub;
mod subs;

pub use sub::{Mode, Sub};
pub use subs::Subs;

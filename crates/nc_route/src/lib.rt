//! Where a request leads: to an action, or to its refusal by the first routing rule that it breaks.
//!
//! Connections stand above. Below are configurations and requests of `nc_types`, ids and dates of `nc_ident`, lists of
//! channels of `nc_multi`, and fields and openings of `nc_accept`. `specs/Rules.antt` defines the rules and the decision.
#![tactic(auto)]

mod decision;
mod kind;
pub mod laws;
mod place;
mod query;
mod reason;
mod route;
mod start;

pub use decision::Decision;
pub use route::rule;

//! Alerts: what one worker tells another, with the holds that it grants.
//!
//! Owners and spools make alerts, workers number them as packets, and rings carry these; all of them stand above.
//! Below is `nc_types`. What a receiver may count on in a packet is one definition, in `specs/`.
#![tactic(auto)]

mod alert;
mod packet;

pub use alert::{Alert, Grant};
pub use packet::{Outgoing, Packet};

//! The parts of a request (RFC 9112): where its head, its chunk lines and its trailer end, what a whole head or line says,
//! and how a head frames the body behind it.
//!
//! `nc_http_in` reads the bytes of a connection by these parts. Below are `nc_types`, the fields by name of `nc_accept`, and
//! the grammar of httparse.
#![tactic(auto)]

mod chunk;
mod ends;
mod framing;
mod head;

pub use chunk::{is_closed, size_of_line};
pub use ends::{Ending, Place, end_behind, line_behind, unblanked};
pub use framing::{Framing, framing_of};
pub use head::head_of;

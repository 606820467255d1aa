//! The answers of HTTP (RFC 9112), byte by byte.
//!
//! Connections write them. Below is `Allow` of `nc_types`, which the routing rules name too.
//! `specs/Head.antt` says each line of a head, and `specs/Answer.antt` which lines an answer has.
#![tactic(auto)]

mod answer;
mod head;

pub use answer::{message, plain};

//! Requests from the bytes of a connection, under any cut (RFC 9112).
//!
//! Connections feed what comes and ask for what is next. Below is `nc_http_head`, which knows the parts of a request.
//! `specs/Items.antt` says what an item of bytes is, `specs/Lists.antt` what all items of bytes are, and `specs/Held.antt` what a
//! reader stands for; `laws` says that it tells the items of all bytes that were fed, in whatever pieces.
#![tactic(auto)]

mod draft;
pub mod laws;
mod next;
mod pending;
mod read;
mod reader;
mod stage;

pub use next::Next;
pub use reader::Reader;

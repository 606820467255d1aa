//! What a server sends over a WebSocket: the frame of a payload, the close frame, and the payload of a message with its id.
//!
//! `nc_types` stands below. `specs/Frame.antt` says what the bytes of a frame are and `specs/Reading.antt` how a client reads
//! them, both in the words of RFC 6455, section 5.2; `laws` joins the two.
#![tactic(auto)]

mod frame;
pub mod laws;
mod meta;

pub use frame::{close_text, frame_text};
pub use meta::meta_text;

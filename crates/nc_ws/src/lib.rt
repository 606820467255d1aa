//! What a client sends over a WebSocket behind its opening, read piece by piece.
//!
//! A connection takes any [`Framer`]. [`PipeFramer`] reads through a socket of the crate `tungstenite` over a pipe in memory;
//! [`LimitedFramer`] stands in where a framer is to fail. Below is `nc_types`. What the reads of one call are and what they come
//! to is defined in `specs/`.
#![tactic(auto)]

mod framer;
mod items;
mod limited;
mod pipe;
mod pipe_framer;
mod told;

pub use framer::{FrameFault, FrameIn, Framer};
pub use limited::LimitedFramer;
pub use pipe_framer::PipeFramer;

//! What one step of a worker is: an input or a packet comes, and events, packets and the worker after it follow.
//!
//! Here stand the inputs as data, and in `specs/` the pure step: the owner's part, which answers what other workers ask, and
//! the rest, which serves the worker's own subscribers and requests. The code that is equal to it is `nc_worker`, above;
//! the pure world of several workers stands on these definitions too. Below are the owner and the spools.
#![tactic(auto)]

mod input;

pub use input::Input;

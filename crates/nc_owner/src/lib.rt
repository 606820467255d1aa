//! The owner of channels: it stores messages, finds them, and keeps who is to be told of the next one.
//!
//! Below are the buffers of `nc_buffer`, the slots of `nc_slots`, and the alerts and events that a step makes.
//! A worker stands above, and gives its owner each alert that it takes.
//! What each step does is a pure function in `specs/`: its events, its alerts, and the owner and the slots after it.
#![tactic(auto)]

mod ascending;
mod backlog;
mod channel;
mod delete;
mod desk;
mod done;
mod edge;
mod fence;
mod information;
mod joining;
mod leave;
mod look;
mod marks;
mod member;
mod members;
mod moment;
mod news;
mod order;
mod owner;
mod poll;
mod publish;
mod publishing;
mod remove;
mod room;
mod shelf;
mod store;
mod sweep;

pub use backlog::Backlog;
pub use channel::Channel;
pub use desk::Desk;
pub use done::Done;
pub use member::Member;
pub use members::Members;
pub use moment::Moment;
pub use order::Order;
pub use owner::Owner;
pub use poll::PollAnswer;

//! The types that every crate names: lists, ids, cursors, channels and texts.
//!
//! Nothing stands below this crate but std.
//! The orders and moves of ids, the owner of a channel and the texts are defined in its `specs/`.
#![tactic(auto)]

mod channel;
mod config;
mod cursor;
mod id;
mod info;
pub mod laws;
mod list;
mod message;
mod request;
mod seen;
mod settings;
mod start;
pub mod tags;
pub mod text;
mod unquote;

pub use channel::{ChanList, ChanName};
pub use config::{Config, IdPart, IdText, Listen, Location};
pub use cursor::Cursor;
pub use id::{GREATEST_TIME, MsgId};
pub use info::{FullLine, Info};
pub use list::{Bytes, List, NoMemory};
pub use message::Msg;
pub use request::{Allow, Field, Request};
pub use seen::SeenNames;
pub use settings::Settings;
pub use start::Start;

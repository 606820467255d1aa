//! Openings of WebSocket connections (RFC 6455, section 4.2), judged and answered, and the fields of a request's head.
//!
//! The routing rules stand above. Below are the requests of `nc_types`, base64 and SHA-1.
//! `specs/Fields.antt` says what the values and items of a field are, `specs/Opening.antt` what an opening is and
//! `specs/Answer.antt` how one is answered.
#![tactic(auto)]

mod answer;
pub mod fields;
mod opening;

pub use answer::reply;
pub use opening::{HandRefusal, Opening, judge};

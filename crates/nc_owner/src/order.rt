//! What a publish orders.
use nc_types::{Bytes, ChanName};

/// A message for a channel, which is to keep at most `length` messages, and this one for `timeout` seconds, where 0 is for ever.
///
/// `r` is the request's number. The timeout is at most 1,000,000,000, and the content type is one line.
#[derive(Drop)]
pub struct Order {
    pub r: u64,
    pub chan: ChanName,
    pub length: u32,
    pub timeout: u64,
    pub content_type: Option<Bytes>,
    pub body: Bytes,
}

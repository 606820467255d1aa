//! What a reader answers.
use nc_types::Request;

/// What the bytes that were fed and not yet answered hold first.
#[derive(Drop)]
pub enum Next {
    /// A whole request.
    Request(Request),
    /// Nothing yet: more bytes are wanted.
    More,
    /// Bytes that are no request: they are refused with this status, and so is all that follows.
    Bad { status: u16 },
}

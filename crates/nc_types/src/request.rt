//! Requests of HTTP as they were read, before a rule was applied to them.
use crate::list::{Bytes, List};

/// A field of a request's head: its name and its value, as they came (RFC 9110, section 5).
#[derive(Drop)]
pub struct Field {
    pub name: Bytes,
    pub value: Bytes,
}

/// A whole request (RFC 9112): HTTP/1.`minor`, with its body freed of its framing.
#[derive(Drop)]
pub struct Request {
    pub method: Bytes,
    /// The target up to its first `?`, not decoded.
    pub path: Bytes,
    /// What stands behind that `?`, if there is one, not decoded.
    pub query: Option<Bytes>,
    pub minor: u8,
    /// The fields, in the order in which they came.
    pub fields: List<Field>,
    pub body: Bytes,
}

/// Which methods an answer of status 405 allows.
#[derive(Clone, Copy, Debug, PartialEq, Eq)]
pub enum Allow {
    /// It says nothing of methods.
    Nothing,
    /// Those of a subscriber: GET.
    Subscriber,
    /// Those of a publisher: GET, POST, PUT and DELETE.
    Publisher,
}

//! Messages as owners keep them.
use crate::id::MsgId;
use crate::list::Bytes;
use std::marker::Model;

/// A message of a channel.
///
/// Its content type, if it has one, holds no CR or LF. It expires at the second `expires`, where 0 is never.
#[derive(Drop)]
pub struct Msg {
    pub id: MsgId,
    pub body: Bytes,
    pub content_type: Option<Bytes>,
    pub expires: u64,
}

impl Model for Msg {
    ghost use Rattle.nc_types.specs.Message.{Message, IsContentType};

    ghost Value = { Message };

    ghost view = { λ m. record { id = m.id; body = m.body; content_type = m.content_type; expires = m.expires } };

    ghost invariant = { λ m. IsContentType m.content_type };
}

//! One slot.
ghost use Rattle.std.specs.Prelude.{◌≡◌, Some, IfSome, IfNone};
ghost use Rattle.nc_slots.specs.Slot.{is_unused, is_buffered, message_of, granted, retired, polled, CanGrant};

/// How often one message can be granted.
pub const MOST_GRANTS: u32 = 4_294_967_295;

/// A slot of an owner, as the owner knows it.
///
/// `clear` tells that it was polled and nobody held it, and that it wasn't granted since.
/// `grants` counts the grants since the message was put, at most [`MOST_GRANTS`].
#[derive(Drop)]
pub enum Slot<M> {
    /// It has no message, and nobody holds one of it.
    Unused,
    /// Its message can be granted.
    Buffered {
        message: M,
        clear: bool,
        grants: u32,
    },
    /// Its message can't be granted any more, but may be held.
    Retired {
        clear: bool,
        grants: u32,
    },
}

impl<M: Drop> Slot<M> {
    /// Whether the slot can take a message.
    pub fn is_unused(&self) -> bool
        ensures { result ≡ is_unused self.now }
    {
        matches!(self, Slot::Unused)
    }

    /// Whether the slot's message can be granted.
    pub fn is_buffered(&self) -> bool
        ensures { result ≡ is_buffered self.now }
    {
        matches!(self, Slot::Buffered { .. })
    }

    /// The message, where it can be granted once more.
    pub(crate) fn grantable(&self) -> Option<&M>
        ensures can { IfSome result (λ _. CanGrant self.now) }
        ensures message { IfSome result (λ message. message_of self.now ≡ Some message.now) }
        ensures cannot { IfNone result (CanGrant self.now → ⊥) }
    {
        match self {
            Slot::Buffered {
                message,
                grants,
                ..
            } if *grants < MOST_GRANTS => Some(message),
            _ => None,
        }
    }

    /// Counts one grant more.
    pub(crate) fn grant(&mut self)
        requires { CanGrant self.old }
        ensures { self.new ≡ granted self.old }
    {
        if let Slot::Buffered { clear, grants, .. } = self {
            *clear = false;
            *grants += 1;
        }
    }

    /// Drops the message of a buffered slot.
    pub(crate) fn retire(&mut self)
        ensures { self.new ≡ retired self.old }
    {
        if let Slot::Buffered { clear, grants, .. } = *self {
            *self = Slot::Retired { clear, grants };
        }
    }

    /// Takes note of a poll: whether somebody holds the slot's message.
    pub(crate) fn poll(&mut self, held: bool)
        ensures { self.new ≡ polled held self.old }
    {
        if held {
            return;
        }
        match self {
            Slot::Buffered { clear, .. } => *clear = true,
            _ => *self = Slot::Unused,
        }
    }
}

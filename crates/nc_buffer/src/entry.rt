//! What a buffer keeps of one message.
ghost use Rattle.std.specs.Prelude.{◌≡◌};
ghost use Rattle.nc_buffer.specs.Buffer.{is_spent};

use nc_types::MsgId;

/// How often one message can be granted.
pub const MOST_GRANTS: u32 = 4_294_967_295;

/// A kept message: its id, the slot in which it lies, the second at which it expires, where 0 is never,
/// and how often it was granted.
#[derive(Clone, Copy, Debug, PartialEq, Eq)]
pub struct Entry {
    pub id: MsgId,
    pub slot: u32,
    pub expires: u64,
    pub grants: u32,
}

impl Entry {
    /// Whether the entry is spent: it can't be granted once more.
    pub(crate) fn is_spent(&self) -> bool
        ensures { result ≡ is_spent self.now }
    {
        self.grants == MOST_GRANTS
    }
}

//! What a connection sees of the frames that its client sends.
ghost use Rattle.std.specs.Prelude.{◌≡◌, ◌≤◌, ℕ, true, false, IfOk, IfErr, OnOk, OnErr};
ghost use Rattle.nc_ws.specs.Count.{HasRisen};
ghost use Rattle.nc_ws.specs.Items.{ends_closed, ClosedIsLast, is_failure};

use nc_types::{Bytes, List, NoMemory};
use std::alloc::Global;

/// What a client's bytes came to.
#[derive(Drop)]
pub enum FrameIn {
    /// A text or binary message. What it says is dropped.
    Message,
    /// Bytes that are to be sent to the client: a pong, or the answer to its close.
    Reply(Bytes),
    /// The client closed the connection (RFC 6455, section 5.5.1). Nothing comes behind it.
    Closed,
}

/// Why a framer gave nothing.
#[derive(Clone, Copy, Debug, PartialEq, Eq)]
pub enum FrameFault {
    /// The bytes are no frames of a client, or go past a limit.
    Failed,
    /// There was no memory.
    NoMemory,
}

impl From<NoMemory> for FrameFault {
    ghost use Rattle.std.specs.Prelude.{◌≡◌};
    ghost use Rattle.nc_ws.specs.declared.framer.FrameFault.TheVariants.{NoMemory as Wanting};

    ghost from_gives = { λ _ e. e ≡ Wanting };

    fn from(_: NoMemory) -> Self {
        FrameFault::NoMemory
    }
}

/// Reads what a client sends over a WebSocket behind its opening.
///
/// Its counts never fall. A count at the last value of 64 bits counts as risen. After a fault, and after a list that ends
/// with [`FrameIn::Closed`], a framer is only to be dropped.
pub trait Framer: Drop {
    /// How often a call failed.
    ghost faults: { Self → ℕ };

    /// How often `take` was called.
    ghost calls: { Self → ℕ };

    /// How often `take` gave a list that ends with Closed.
    ghost closes: { Self → ℕ };

    /// A framer that took nothing yet, for the connection of a number.
    fn begin(alloc: Global, conn: u32) -> Result<Self, NoMemory>
        ensures faults { IfOk result (λ framer. faults framer ≡ 0) }
        ensures calls { IfOk result (λ framer. calls framer ≡ 0) }
        ensures closes { IfOk result (λ framer. closes framer ≡ 0) };

    /// Takes the next bytes of the client and gives what they came to, in order.
    fn take(&mut self, piece: &[u8]) -> Result<List<FrameIn>, FrameFault>
        ensures last { IfOk result (λ list. ClosedIsLast list) }
        ensures closed { IfOk result (λ list. ends_closed list ≡ true → HasRisen (closes self.old) (closes self.new)) }
        ensures not_closed { IfOk result (λ list. ends_closed list ≡ false → closes self.new ≡ closes self.old) }
        ensures no_list { OnErr result (closes self.new ≡ closes self.old) }
        ensures failed { IfErr result (λ fault. is_failure fault ≡ true → HasRisen (faults self.old) (faults self.new)) }
        ensures not_failed { IfErr result (λ fault. is_failure fault ≡ false → faults self.new ≡ faults self.old) }
        ensures no_fault { OnOk result (faults self.new ≡ faults self.old) }
        ensures called { HasRisen (calls self.old) (calls self.new) }
        ensures faults_counted { faults self.old ≤ faults self.new }
        ensures calls_counted { calls self.old ≤ calls self.new }
        ensures closes_counted { closes self.old ≤ closes self.new };
}

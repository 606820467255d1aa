//! Where bytes go to.
//!
//! A sink tells contracts which bytes its writes took so far.
ghost use Rattle.std.specs.Prelude.{◌≡◌, ◌≤◌, ◌<◌, ◌⊎◌, ◌++◌, ℕ, List, take, length, IfOk, OnErr};
ghost use Rattle.nc_outside.specs.Fault.{HasRisen};

use crate::source::Failed;

/// Takes bytes in their order.
pub trait Sink {
    /// The bytes taken, in their order.
    ghost taken: { Self → List ℕ };

    /// How often a call failed. A count at the last value of 64 bits counts as risen.
    ghost faults: { Self → ℕ };

    /// How often a call took nothing of a piece that isn't empty, counted in the same way.
    ghost refusals: { Self → ℕ };

    /// Takes bytes from the front of the piece, and says how many.
    ///
    /// It errs where the sink failed, and then takes none.
    fn write(&mut self, piece: &[u8]) -> Result<usize, Failed>
        ensures within { IfOk result (λ n. n ≤ length piece.now) }
        ensures added { IfOk result (λ n. taken self.new ≡ taken self.old ++ take n piece.now) }
        ensures nothing { IfOk result (λ n. n ≡ 0 → 0 < length piece.now → HasRisen (refusals self.old) (refusals self.new)) }
        ensures something { IfOk result (λ n. (0 < n) ⊎ (length piece.now ≡ 0) → refusals self.new ≡ refusals self.old) }
        ensures no_fault { IfOk result (λ _. faults self.new ≡ faults self.old) }
        ensures failed { OnErr result (HasRisen (faults self.old) (faults self.new)) }
        ensures unmoved { OnErr result (taken self.new ≡ taken self.old) }
        ensures unrefused { OnErr result (refusals self.new ≡ refusals self.old) }
        ensures counted { faults self.old ≤ faults self.new }
        ensures refusals_counted { refusals self.old ≤ refusals self.new };
}

//! Where bytes come from.
//!
//! A source tells contracts what its reads gave so far. It may tell which bytes it has left; one that stands for the world
//! outside doesn't.
ghost use Rattle.std.specs.Prelude.{◌≡◌, ◌≤◌, ◌<◌, ℕ, List, ◌∷◌, Option, take, length, IfOk, OnErr};
ghost use Rattle.nc_outside.specs.Fault.{HasRisen};
ghost use Rattle.nc_outside.specs.Flow.{MovesFront};

/// The call failed, and its object counted that.
#[derive(Clone, Copy, Debug, PartialEq, Eq)]
pub struct Failed;

/// Gives bytes in their order.
pub trait Source {
    /// The bytes left, where it tells.
    ghost left: { Self → Option (List ℕ) };

    /// What each read gave that didn't fail, the newest first. Nothing is the end.
    ghost given: { Self → List (List ℕ) };

    /// How often a call failed. A count at the last value of 64 bits counts as risen.
    ghost faults: { Self → ℕ };

    /// Moves bytes to the front of the room, and says how many.
    ///
    /// None is the end. It errs where the source failed, and then moves none.
    fn read(&mut self, room: &mut [u8]) -> Result<usize, Failed>
        requires { 0 < length room.old }
        ensures within { IfOk result (λ n. n ≤ length room.old) }
        ensures given { IfOk result (λ n. given self.new ≡ take n room.new ∷ given self.old) }
        ensures ungiven { OnErr result (given self.new ≡ given self.old) }
        ensures moved { IfOk result (λ n. MovesFront (left self.old) (left self.new) room.new n) }
        ensures no_fault { IfOk result (λ _. faults self.new ≡ faults self.old) }
        ensures failed { OnErr result (HasRisen (faults self.old) (faults self.new)) }
        ensures unmoved { OnErr result (left self.new ≡ left self.old) }
        ensures counted { faults self.old ≤ faults self.new };
}

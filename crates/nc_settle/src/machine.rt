//! Machines with turns.
ghost use Rattle.std.specs.Prelude.{◌≡◌, ℕ, Bool, IfOk, OnOk};
ghost use Rattle.nc_settle.specs.Turns.{turn_told, turn_leaves};

use nc_types::NoMemory;

/// What a turn did.
#[derive(Clone, Copy)]
pub enum Turn {
    /// Nothing: there was nothing to do.
    Nothing,
    /// A move.
    Moved,
    /// Nothing, though there is something to do: who would do it is worn.
    Worn,
}

/// A machine whose moves come by turns, which have numbers from 0 on.
pub trait Machine {
    /// What clauses see of it.
    ghost World: { Type 0 };

    /// The machine as its world.
    ghost seen: { Self → World };

    /// What each call counts on and keeps.
    ghost sound: { Self → Type 0 };

    /// Whether a turn has something to do.
    ghost can: { World → ℕ → Bool };

    /// Whether a turn that has something to do meets somebody worn.
    ghost worn: { World → ℕ → Bool };

    /// The world after a turn that does something.
    ghost moved: { ℕ → World → World };

    /// Whether nothing is left to do.
    ghost idle: { World → Bool };

    /// Whether nothing is left to do.
    fn is_idle(&self) -> bool
        requires { sound self.now }
        ensures { result ≡ idle (seen self.now) };

    /// Makes a turn, if it has something to do. After want of memory nothing is said of the machine.
    fn try_turn(&mut self, turn: u32) -> Result<Turn, NoMemory>
        requires { sound self.old }
        ensures sound { OnOk result (sound self.new) }
        ensures told { IfOk result (λ t. t ≡ turn_told (can (seen self.old) turn) (worn (seen self.old) turn)) }
        ensures leaves { IfOk result (λ t. seen self.new ≡ turn_leaves t (moved turn (seen self.old)) (seen self.old)) };
}

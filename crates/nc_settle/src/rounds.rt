//! The loop of settling.
ghost use Rattle.std.specs.Prelude.{◌≡◌, IfOk, OnOk};
ghost use Rattle.nc_settle.specs.Turns.{below};
ghost use Rattle.nc_settle.specs.Settle.{settled, before_worn};
ghost use Rattle.nc_settle.specs.Ends.{moves_made, worn_told};

use crate::machine::{Machine, Turn};
use nc_types::NoMemory;

/// How settling ended.
#[derive(Clone, Copy)]
pub enum Settled {
    /// All moves were made, or nothing is left to do.
    Whole,
    /// So many moves were made, and the next would meet somebody worn.
    Worn { moves: u64 },
}

/// Makes at most `n` moves, turn by turn in rounds of so many turns, until nothing is left to do.
/// It stops before a turn that meets somebody worn, and tells how many moves it made.
pub fn settle<M: Machine>(machine: &mut M, n: u64, turns: u32) -> Result<Settled, NoMemory>
    requires { M.sound machine.old }
    ensures sound { OnOk result (M.sound machine.new) }
    ensures worn { IfOk result (λ s. worn_told s ≡ before_worn M.can M.worn M.moved M.idle n (below turns) (M.seen machine.old)) }
    ensures leaves { IfOk result (λ s. M.seen machine.new ≡ settled M.can M.moved M.idle (moves_made n s) (below turns) (M.seen machine.old)) }
{
    let mut made = 0;
    for _ in 0..n {
        let before = made;
        for turn in 0..turns {
            if made == n || machine.is_idle() {
                return Ok(Settled::Whole);
            }
            match machine.try_turn(turn)? {
                Turn::Nothing => {}
                Turn::Moved => made += 1,
                Turn::Worn => return Ok(Settled::Worn { moves: made }),
            }
        }
        if made == before {
            return Ok(Settled::Whole);
        }
    }
    Ok(Settled::Whole)
}

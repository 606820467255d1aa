//! Turns as data.
ghost use Rattle.std.specs.Prelude.{◌≡◌, IfSome};
ghost use Rattle.nc_turns.specs.Turns.{turn_move};
ghost use Rattle.nc_turns.specs.Transfer.{transfer_move, IsAmong};

/// What a turn tries.
#[derive(Clone, Copy)]
pub enum Transfer {
    /// The first packet of worker `w` to worker `to` goes into the ring between them.
    Carry { w: u8, to: u8 },
    /// Worker `w` takes the first packet of the ring from worker `from`.
    Take { w: u8, from: u8 },
}

/// What a turn of a round tries, of so many workers: first a carry of each pair, then a take of each.
/// None comes exactly where a round has no such turn.
pub fn transfer_at(workers: u8, turn: u32) -> Option<Transfer>
    ensures moves { transfer_move result ≡ turn_move workers turn }
    ensures among { IfSome result (IsAmong workers) }
{
    let workers = u32::from(workers);
    let pairs = workers * workers;
    if turn < pairs {
        Some(Transfer::Carry {
            w: (turn / workers) as u8,
            to: (turn % workers) as u8,
        })
    } else if turn - pairs < pairs {
        let turn = turn - pairs;
        Some(Transfer::Take {
            w: (turn / workers) as u8,
            from: (turn % workers) as u8,
        })
    } else {
        None
    }
}

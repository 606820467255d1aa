//! Moves that may do nothing, and settling by them.
ghost use Rattle.std.specs.Prelude.{◌≡◌, ◌<◌, IfOk, OnOk, true};
ghost use Rattle.nc_worker_state.specs.Worker.{is_worn};
ghost use Rattle.nc_world.specs.Moves.{Carries, Takes};
ghost use Rattle.nc_world.specs.Lines.{Settle, does};
ghost use Rattle.nc_settle.specs.Ends.{moves_made, worn_told};
ghost use Rattle.nc_turns.specs.Turns.{turn_move};
ghost use Rattle.nc_turns.specs.Worn.{before_worn_in};
ghost use Rattle.nc_turns.specs.Telling.{Telling, can_turn, worn_turn, turned, is_idle};
ghost use Rattle.nc_turns.specs.Laws.{IsSettled};
ghost use Rattle.nc_floor.specs.Floor.{setup_in, world_of, telling_of, IsFloor, Tries};

use crate::floor::Floor;
use crate::hand::Hand;
use crate::moves::{carry_on, take_up};
use nc_settle::{Machine, Settled, Turn};
use nc_slots::{PlainSlots, Slots};
use nc_turns::{Transfer, transfer_at};
use nc_types::NoMemory;

/// Whether a carry does something: a packet of worker `w` to another waits, and the ring between them has room.
fn can_carry<W: Hand>(floor: &Floor<W>, w: u8, to: u8) -> bool
    requires floor { IsFloor W.worker W.sound ⟦<PlainSlots as Slots>⟧.held floor.now }
    requires there { w < floor.now.conf.workers }
    ensures { result ≡ does (world_of W.worker floor.now) (Carries w to) }
{
    floor.hands[usize::from(w)].waiting(to) > 0 && floor.rings.has_room(w, to)
}

/// Whether a take does something: a packet is in the ring from another worker to `w`.
fn can_take<W: Hand>(floor: &Floor<W>, w: u8, from: u8) -> bool
    ensures { result ≡ does (world_of W.worker floor.now) (Takes w from) }
{
    floor.rings.len(from, w) > 0
}

/// Whether worker `w` is worn.
pub fn is_worn<W: Hand>(floor: &Floor<W>, w: u8) -> bool
    requires floor { IsFloor W.worker W.sound ⟦<PlainSlots as Slots>⟧.held floor.now }
    requires there { w < floor.now.conf.workers }
    ensures { result ≡ is_worn floor.now.conf.workers ((world_of W.worker floor.now).workers w) }
{
    floor.hands[usize::from(w)].is_worn(floor.conf.workers)
}

/// Carries the first packet of worker `w` to another into the ring between them, if one waits and the ring has room.
pub fn carry<W: Hand>(floor: &mut Floor<W>, w: u8, to: u8) -> Result<Turn, NoMemory>
    requires floor { IsFloor W.worker W.sound ⟦<PlainSlots as Slots>⟧.held floor.old }
    requires there { w < floor.old.conf.workers }
    requires receiver { to < floor.old.conf.workers }
    ensures floor { OnOk result (IsFloor W.worker W.sound ⟦<PlainSlots as Slots>⟧.held floor.new) }
    ensures tries { IfOk result (λ turn. Tries W.worker (Carries w to) turn floor.old floor.new) }
{
    if !can_carry(floor, w, to) {
        return Ok(Turn::Nothing);
    }
    carry_on(floor, w, to)?;
    Ok(Turn::Moved)
}

/// Worker `w` takes the first packet of the ring from another and handles it, if there is one. A worn worker takes none.
pub fn take<W: Hand>(floor: &mut Floor<W>, w: u8, from: u8) -> Result<Turn, NoMemory>
    requires floor { IsFloor W.worker W.sound ⟦<PlainSlots as Slots>⟧.held floor.old }
    requires there { w < floor.old.conf.workers }
    requires sender { from < floor.old.conf.workers }
    ensures floor { OnOk result (IsFloor W.worker W.sound ⟦<PlainSlots as Slots>⟧.held floor.new) }
    ensures tries { IfOk result (λ turn. Tries W.worker (Takes w from) turn floor.old floor.new) }
{
    if !can_take(floor, w, from) {
        return Ok(Turn::Nothing);
    }
    if is_worn(floor, w) {
        return Ok(Turn::Worn);
    }
    take_up(floor, w, from)?;
    Ok(Turn::Moved)
}

/// Tries the turn of a number.
fn try_transfer<W: Hand>(floor: &mut Floor<W>, turn: u32) -> Result<Turn, NoMemory>
    requires { IsFloor W.worker W.sound ⟦<PlainSlots as Slots>⟧.held floor.old }
    ensures floor { OnOk result (IsFloor W.worker W.sound ⟦<PlainSlots as Slots>⟧.held floor.new) }
    ensures tries { IfOk result (λ did. Tries W.worker (turn_move floor.old.conf.workers turn) did floor.old floor.new) }
{
    match transfer_at(floor.conf.workers, turn) {
        Some(Transfer::Carry { w, to }) => carry(floor, w, to),
        Some(Transfer::Take { w, from }) => take(floor, w, from),
        None => Ok(Turn::Nothing),
    }
}

impl<W: Hand> Machine for Floor<W> {
    ghost World = { Telling };

    ghost seen = { telling_of W.worker };

    ghost sound = { IsFloor W.worker W.sound ⟦<PlainSlots as Slots>⟧.held };

    ghost can = { can_turn };

    ghost worn = { worn_turn };

    ghost moved = { turned };

    ghost idle = { is_idle };

    fn is_idle(&self) -> bool {
        self.pending == 0
    }

    fn try_turn(&mut self, turn: u32) -> Result<Turn, NoMemory> {
        try_transfer(self, turn)
    }
}

/// Makes at most `n` carries and takes that do something, in rounds, until no alert is pending or the next one meets a worn worker.
pub fn settle<W: Hand>(floor: &mut Floor<W>, n: u64) -> Result<Settled, NoMemory>
    requires { IsFloor W.worker W.sound ⟦<PlainSlots as Slots>⟧.held floor.old }
    ensures floor { OnOk result (IsFloor W.worker W.sound ⟦<PlainSlots as Slots>⟧.held floor.new) }
    ensures worn { IfOk result (λ s. worn_told s ≡ before_worn_in (setup_in floor.old) (Settle n) (world_of W.worker floor.old)) }
    ensures settled { IfOk result (λ s. IsSettled (moves_made n s) (telling_of W.worker floor.old) (telling_of W.worker floor.new)) }
{
    let workers = u32::from(floor.conf.workers);
    let settled = nc_settle::settle(floor, n, workers * workers + workers * workers)?;
    Ok(settled)
}

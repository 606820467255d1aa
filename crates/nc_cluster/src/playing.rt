//! Lines as moves. After want of memory the floor of a line is only to be dropped.
ghost use Rattle.std.specs.Prelude.{◌≡◌, ◌<◌, [], IfOk, OnOk};
ghost use Rattle.nc_worker_state.specs.Incoming.{incoming_of};
ghost use Rattle.nc_world_laws.specs.Outside.{IsOutside};
ghost use Rattle.nc_floor.specs.Hand.{IsRight};
ghost use Rattle.nc_floor.specs.Floor.{IsFloor};
ghost use Rattle.nc_cluster.specs.PureLine.{pure_line, CanMake};
ghost use Rattle.nc_cluster.specs.Comers.{with_made};
ghost use Rattle.nc_cluster.specs.Made.{has_moved, HandsIn, Carrying, Taking, Settling, Makes};

use crate::fitting::{comer, note};
use nc_floor::{Floor, Hand, carry, count, handle, is_worn, rest, settle, take};
use nc_owner::Members;
use nc_script::Line;
use nc_settle::{Settled, Turn};
use nc_slots::{PlainHold, PlainSlots, Slots};
use nc_types::NoMemory;
use nc_worker_state::Input;

/// Something comes to worker `w` from outside, and it is told where no alert is pending.
fn hand_in<W: Hand>(
    floor: &mut Floor<W>,
    w: u8,
    input: Input<PlainHold>,
) -> Result<Settled, NoMemory>
    requires floor { IsFloor W.worker W.sound ⟦<PlainSlots as Slots>⟧.held floor.old }
    requires told { floor.old.told ≡ [] }
    requires there { w < floor.old.conf.workers }
    requires outside { IsOutside (incoming_of input) }
    requires right { IsRight ⟦<PlainSlots as Slots>⟧.held floor.old.conf.workers w input }
    ensures floor { OnOk result (IsFloor W.worker W.sound ⟦<PlainSlots as Slots>⟧.held floor.new) }
    ensures made { IfOk result (λ ended. HandsIn W.worker w (incoming_of input) ended floor.old floor.new) }
{
    if is_worn(floor, w) {
        return Ok(Settled::Worn { moves: 0 });
    }
    handle(floor, w, input)?;
    rest(floor)?;
    Ok(Settled::Whole)
}

/// A packet of worker `w` to another is carried, and it is told where no alert is pending.
fn carry_line<W: Hand>(floor: &mut Floor<W>, w: u8, to: u8) -> Result<Settled, NoMemory>
    requires floor { IsFloor W.worker W.sound ⟦<PlainSlots as Slots>⟧.held floor.old }
    requires told { floor.old.told ≡ [] }
    requires there { w < floor.old.conf.workers }
    requires receiver { to < floor.old.conf.workers }
    ensures floor { OnOk result (IsFloor W.worker W.sound ⟦<PlainSlots as Slots>⟧.held floor.new) }
    ensures made { IfOk result (λ ended. Carrying W.worker w to ended floor.old floor.new) }
{
    carry(floor, w, to)?;
    rest(floor)?;
    Ok(Settled::Whole)
}

/// Worker `w` takes a packet of another, and it is told where no alert is pending.
fn take_line<W: Hand>(floor: &mut Floor<W>, w: u8, from: u8) -> Result<Settled, NoMemory>
    requires floor { IsFloor W.worker W.sound ⟦<PlainSlots as Slots>⟧.held floor.old }
    requires told { floor.old.told ≡ [] }
    requires there { w < floor.old.conf.workers }
    requires sender { from < floor.old.conf.workers }
    ensures floor { OnOk result (IsFloor W.worker W.sound ⟦<PlainSlots as Slots>⟧.held floor.new) }
    ensures made { IfOk result (λ ended. Taking W.worker w from ended floor.old floor.new) }
{
    if let Turn::Worn = take(floor, w, from)? {
        return Ok(Settled::Worn { moves: 0 });
    }
    rest(floor)?;
    Ok(Settled::Whole)
}

/// Whether settling made a move before a worn worker, or met none.
fn has_moved(ended: Settled) -> bool
    ensures { result ≡ has_moved ended }
{
    match ended {
        Settled::Whole => true,
        Settled::Worn { moves } => moves > 0,
    }
}

/// At most `n` carries and takes that do something are made, and it is told how many alerts are pending.
fn settle_line<W: Hand>(floor: &mut Floor<W>, n: u64) -> Result<Settled, NoMemory>
    requires floor { IsFloor W.worker W.sound ⟦<PlainSlots as Slots>⟧.held floor.old }
    requires told { floor.old.told ≡ [] }
    ensures floor { OnOk result (IsFloor W.worker W.sound ⟦<PlainSlots as Slots>⟧.held floor.new) }
    ensures made { IfOk result (λ ended. Settling W.worker n ended floor.old floor.new) }
{
    let ended = settle(floor, n)?;
    if !has_moved(ended) {
        return Ok(ended);
    }
    count(floor)?;
    Ok(ended)
}

/// Makes a line, or as much of it as comes before a worn worker.
pub fn play<W: Hand>(floor: &mut Floor<W>, line: Line) -> Result<Settled, NoMemory>
    requires floor { IsFloor W.worker W.sound ⟦<PlainSlots as Slots>⟧.held floor.old }
    requires told { floor.old.told ≡ [] }
    requires line { CanMake floor.old.conf.workers line }
    ensures floor { OnOk result (IsFloor W.worker W.sound ⟦<PlainSlots as Slots>⟧.held floor.new) }
    ensures made { IfOk result (λ ended. Makes W.worker (pure_line line) ended floor.old floor.new) }
{
    match line {
        Line::Blank => Ok(Settled::Whole),
        Line::Clock { w, t } => hand_in(floor, w, Input::Clock(t)),
        Line::Reap { w } => hand_in(floor, w, Input::Reap),
        Line::Carry { w, to } => carry_line(floor, w, to),
        Line::Take { w, from } => take_line(floor, w, from),
        Line::Settle { n } => settle_line(floor, n),
        Line::Post { w, chan, body } => hand_in(floor, w, Input::Post { chan, body }),
        Line::Poll { w, k, list, start } => hand_in(floor, w, Input::Poll { k, list, start }),
        Line::Remove { w, chan } => hand_in(floor, w, Input::Remove { chan }),
        Line::Inform { w, chan } => hand_in(floor, w, Input::Inform { chan }),
    }
}

/// Makes a line, or as much of it as comes before a worn worker. Who comes with a line that was wholly made is a subscriber from then on.
pub(crate) fn play_and_note<W: Hand>(
    floor: &mut Floor<W>,
    subscribers: &mut Members,
    line: Line,
) -> Result<Settled, NoMemory>
    requires floor { IsFloor W.worker W.sound ⟦<PlainSlots as Slots>⟧.held floor.old }
    requires told { floor.old.told ≡ [] }
    requires line { CanMake floor.old.conf.workers line }
    ensures floor { OnOk result (IsFloor W.worker W.sound ⟦<PlainSlots as Slots>⟧.held floor.new) }
    ensures made { IfOk result (λ ended. Makes W.worker (pure_line line) ended floor.old floor.new) }
    ensures noted { IfOk result (λ ended. subscribers.new ≡ with_made ended (pure_line line) subscribers.old) }
{
    let coming = comer(&line);
    match play(floor, line)? {
        Settled::Whole => {
            note(subscribers, coming)?;
            Ok(Settled::Whole)
        }
        Settled::Worn { moves } => Ok(Settled::Worn { moves }),
    }
}

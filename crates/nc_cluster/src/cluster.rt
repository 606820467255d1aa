//! The cluster.
ghost use Rattle.std.specs.Prelude.{◌≡◌, ◌==◌, true, false, List, [], None, IfOk, IfErr};
ghost use Rattle.nc_history.specs.Steps.{joined};
ghost use Rattle.nc_worker_state.specs.Setup.{Setup, setup_of};
ghost use Rattle.nc_world.specs.World.{new_world, pending_in};
ghost use Rattle.nc_world.specs.Lines.{Line as MadeLine, journal_of};
ghost use Rattle.nc_floor.specs.Floor.{setup_in, world_of, telling_of, IsFloor};
ghost use Rattle.nc_cluster.specs.PureLine.{pure_line, CanMake};
ghost use Rattle.nc_cluster.specs.Comers.{noted, subscribed, broken_rule};
ghost use Rattle.nc_cluster.specs.Cluster.{IsCluster, HasMade, IsRefused};
ghost use Rattle.nc_cluster.specs.Stands.{seen, Stands, GoesOn, IsLeft};

use crate::fitting::{comer, rule_for};
use crate::playing::play_and_note;
use nc_floor::{Floor, Hand, finish, is_quiet, open};
use nc_journal::EventList;
use nc_owner::Members;
use nc_script::Line;
use nc_settle::Settled;
use nc_slots::{PlainSlots, Slots};
use nc_types::{Config, NoMemory};
use nc_world_follows::journal::fit_lines_reach;
use std::alloc::Global;

/// Why a line wasn't made, or not wholly.
#[derive(Drop)]
pub enum MoveRefusal {
    /// There was no memory, and the cluster is spent.
    NoMemory,
    /// A worn worker would be called on. These are the events of the moves before, which were made.
    Worn { events: EventList },
    /// There was no memory for an earlier line.
    Spent,
}

/// Several workers, with their slots and the packets between them, that make lines one after the other.
#[derive(Drop)]
pub struct Cluster<W> {
    floor: Floor<W>,
    subscribers: Members,
    spent: bool,
}

/// A cluster on a new floor, which had no subscribers yet.
fn begin<W: Hand>(floor: Floor<W>, subscribers: Members) -> Cluster<W>
    requires floor { IsFloor W.worker W.sound ⟦<PlainSlots as Slots>⟧.held floor }
    requires told { floor.told ≡ [] }
    requires none { subscribers ≡ [] }
    ensures cluster { IsCluster W.worker W.sound ⟦<PlainSlots as Slots>⟧.held result }
    ensures stands { (setup : Setup) → telling_of W.worker floor ≡ record { setup = setup; world = new_world setup; told = [] }
        → Stands setup [] (seen W.worker result) }
{
    Cluster {
        floor,
        subscribers,
        spent: false,
    }
}

impl<W: Hand> Cluster<W> {
    /// A cluster of new workers by a configuration, whose numbers begin with `first`. It made no line yet.
    pub fn new(alloc: Global, conf: Config, first: u64) -> Result<Cluster<W>, NoMemory>
        ensures cluster { IfOk result (IsCluster W.worker W.sound ⟦<PlainSlots as Slots>⟧.held) }
        ensures stands { IfOk result (λ cluster. Stands (setup_of conf first) [] (seen W.worker cluster)) }
    {
        let floor = open(alloc, conf, first)?;
        Ok(begin(floor, Members::new(alloc)))
    }

    /// The lowest of the rules of a script that a line breaks by the lines before it, if it breaks one: rule 10 alone, where a worker
    /// had a subscriber of this number.
    pub fn fits(&self, line: &Line) -> Option<u8>
        ensures rule { result ≡ broken_rule (noted self.now.subscribers) (pure_line line.now) }
        ensures told { (setup : Setup) (lines : List MadeLine) → Stands setup lines (seen W.worker self.now)
            → result ≡ broken_rule (subscribed (joined (journal_of setup lines))) (pure_line line.now) }
    {
        rule_for(&self.subscribers, comer(line))
    }

    /// Makes a line that keeps to the workers, whether or not it fits those before it.
    fn advance(&mut self, line: Line) -> Result<EventList, MoveRefusal>
        requires cluster { IsCluster W.worker W.sound ⟦<PlainSlots as Slots>⟧.held self.old }
        requires line { CanMake self.old.floor.conf.workers line }
        ensures cluster { IsCluster W.worker W.sound ⟦<PlainSlots as Slots>⟧.held self.new }
        ensures made { IfOk result (λ told. HasMade W.worker (pure_line line) told.events self.old self.new) }
        ensures refused { IfErr result (λ refusal. IsRefused W.worker (pure_line line) refusal self.old self.new) }
    {
        if self.spent {
            return Err(MoveRefusal::Spent);
        }
        match play_and_note(&mut self.floor, &mut self.subscribers, line) {
            Ok(Settled::Whole) => Ok(finish(&mut self.floor)),
            Ok(Settled::Worn { moves: _ }) => Err(MoveRefusal::Worn {
                events: finish(&mut self.floor),
            }),
            Err(_) => {
                self.spent = true;
                Err(MoveRefusal::NoMemory)
            }
        }
    }

    /// Makes a line that fits those before it, and gives its events.
    ///
    /// `Spent` comes exactly after an earlier `NoMemory`. Else `Worn` comes exactly where the line, or the next move of a settle, would
    /// call on a worn worker: what is left and told is that of a settle of as many moves as were made.
    pub fn make_move(&mut self, line: Line) -> Result<EventList, MoveRefusal>
        requires cluster { IsCluster W.worker W.sound ⟦<PlainSlots as Slots>⟧.held self.old }
        requires line { CanMake self.old.floor.conf.workers line }
        requires fits { broken_rule (noted self.old.subscribers) (pure_line line) ≡ None }
        ensures cluster { IsCluster W.worker W.sound ⟦<PlainSlots as Slots>⟧.held self.new }
        ensures made { IfOk result (λ told. HasMade W.worker (pure_line line) told.events self.old self.new) }
        ensures goes_on { IfOk result (λ told. GoesOn (pure_line line) told.events (seen W.worker self.old) (seen W.worker self.new)) }
        ensures refused { IfErr result (λ refusal. IsRefused W.worker (pure_line line) refusal self.old self.new) }
        ensures left { IfErr result (λ refusal. IsLeft refusal (seen W.worker self.old) (seen W.worker self.new)) }
    {
        fit_lines_reach();
        self.advance(line)
    }

    /// Whether no alert is pending.
    pub fn quiet(&self) -> bool
        requires cluster { IsCluster W.worker W.sound ⟦<PlainSlots as Slots>⟧.held self.now }
        requires fresh { self.now.spent ≡ false }
        ensures { result ≡ (pending_in (setup_in self.now.floor) (world_of W.worker self.now.floor) == 0) }
    {
        is_quiet(&self.floor)
    }
}

//! The lines of a script are made one after the other, and the events of each are written once it is made.
//!
//! Below stand the reading of lines, the cluster and the writing of texts; above stands the top call.
ghost use Rattle.std.specs.Prelude.{◌≡◌, ◌≤◌, List, None, length, false, IfOk, IfErr, OnOk, OnErr};
ghost use Rattle.nc_journal.specs.Text.{lines_text};
ghost use Rattle.nc_script.specs.Judge.{Judged};
ghost use Rattle.nc_worker_state.specs.Setup.{Setup, setup_of};
ghost use Rattle.nc_world.specs.Lines.{Line as MadeLine};
ghost use Rattle.nc_cluster.specs.PureLine.{pure_line, CanMake};
ghost use Rattle.nc_cluster.specs.Cluster.{IsCluster};
ghost use Rattle.nc_cluster.specs.Comers.{noted, broken_rule};
ghost use Rattle.nc_cluster.specs.Stands.{Stands, seen};
ghost use Rattle.nc_replay.specs.Input.{longest_input, Adds, AddsPrefix, HasStopped, IsCalm};
ghost use Rattle.nc_replay.specs.Script.{lines_of};
ghost use Rattle.nc_replay.specs.Lines.{line_after};
ghost use Rattle.nc_replay.specs.Run.{EndsLines, MakesSome};
ghost use Rattle.nc_replay.specs.Turns.{TurnsOut};
ghost use Rattle.nc_replay.specs.declared.making.Stop.TheVariants.{Sink as SinkStop, NoMemory as NoMemoryStop};

use crate::fault::Fault;
use crate::input::write_all;
use crate::script::{first_line, rest_after};
use nc_cluster::{Cluster, MoveRefusal};
use nc_floor::{Hand, sets_up};
use nc_journal::{EventList, put_lines};
use nc_outside::{Failed, Sink};
use nc_script::laws::lines_fit;
use nc_script::{Line, LineFault, place_of, read_line};
use nc_slots::{PlainSlots, Slots};
use nc_types::{Config, NoMemory};
use nc_world_follows::journal::fit_lines_reach;
use nc_world_lawful::lawful::journals_are_lawful;
use nc_world_worn::worn::worn_is_told;
use std::alloc::Global;

/// Why the making of lines stops before their end.
#[derive(Clone, Copy, Debug, PartialEq, Eq)]
pub enum Stop {
    /// The sink failed or took nothing.
    Sink,
    /// There was no memory.
    NoMemory,
}

impl From<Failed> for Stop {
    ghost from_gives = { λ _ e. e ≡ SinkStop };

    fn from(_: Failed) -> Self {
        Stop::Sink
    }
}

impl From<NoMemory> for Stop {
    ghost from_gives = { λ _ e. e ≡ NoMemoryStop };

    fn from(_: NoMemory) -> Self {
        Stop::NoMemory
    }
}

/// How the making of lines ends that could be written.
#[derive(Clone, Copy, Debug, PartialEq, Eq)]
pub enum Ending {
    /// Every line was made.
    All,
    /// A line breaks a rule.
    Faulty(Fault),
    /// A line would have called on a worn worker.
    Worn,
}

/// What a line came to.
#[derive(Drop)]
enum Turn {
    /// It was made, with these events.
    Made(EventList),
    /// It would have called on a worn worker. These are the events of the moves before.
    Worn(EventList),
}

/// Reads a line, which may take no number that a subscriber of its worker had.
fn admit<W: Hand>(
    alloc: Global,
    cluster: &Cluster<W>,
    workers: u8,
    text: &[u8],
) -> Result<Line, LineFault>
    ensures judged { (setup : Setup) (lines : List MadeLine) → Stands setup lines (seen W.worker cluster.now)
        → Judged (line_after workers lines text.now) result }
    ensures fits { IfOk result (λ line. broken_rule (noted cluster.now.subscribers) (pure_line line) ≡ None) }
    ensures can { IfOk result (CanMake workers) }
{
    // a line keeps its limits, and the journal of lines shows who was subscribed
    lines_fit();
    fit_lines_reach();
    let line = read_line(alloc, text, workers)?;
    let Some(rule) = cluster.fits(&line) else {
        return Ok(line);
    };
    drop(line);
    Err(LineFault::Rule {
        rule,
        at: place_of(text, rule),
    })
}

/// Makes a line.
fn make<W: Hand>(cluster: &mut Cluster<W>, line: Line) -> Result<Turn, NoMemory>
    requires cluster { IsCluster W.worker W.sound ⟦<PlainSlots as Slots>⟧.held cluster.old }
    requires line { CanMake cluster.old.floor.conf.workers line }
    requires fits { broken_rule (noted cluster.old.subscribers) (pure_line line) ≡ None }
    ensures cluster { OnOk result (IsCluster W.worker W.sound ⟦<PlainSlots as Slots>⟧.held cluster.new) }
    ensures turns { IfOk result (TurnsOut (pure_line line) (seen W.worker cluster.old) (seen W.worker cluster.new)) }
{
    match cluster.make_move(line) {
        Ok(events) => Ok(Turn::Made(events)),
        Err(MoveRefusal::Worn { events }) => Ok(Turn::Worn(events)),
        Err(MoveRefusal::NoMemory | MoveRefusal::Spent) => Err(NoMemory),
    }
}

/// The text of some events.
fn text_of(alloc: Global, events: &EventList) -> Result<Vec<u8>, NoMemory>
    ensures { IfOk result (λ text. text.items ≡ lines_text events.now.events) }
{
    let mut text = Vec::new(alloc);
    put_lines(alloc, &mut text, events.events.as_slice())?;
    Ok(text)
}

/// Writes the text of some events. Where it errs, a prefix of it is written.
fn write_events<K: Sink>(alloc: Global, events: &EventList, out: &mut K) -> Result<(), Stop>
    ensures whole { OnOk result (Adds (lines_text events.now.events) (K.taken out.old) (K.taken out.new)) }
    ensures prefix { OnErr result (AddsPrefix (lines_text events.now.events) (K.taken out.old) (K.taken out.new)) }
    ensures cause { IfErr result (HasStopped (K.faults out.old) (K.faults out.new) (K.refusals out.old) (K.refusals out.new)) }
    ensures calm { OnOk result (IsCalm (K.faults out.old) (K.faults out.new) (K.refusals out.old) (K.refusals out.new)) }
{
    let text = text_of(alloc, events)?;
    write_all(out, &text)?;
    Ok(())
}

/// How many workers a configuration sets up.
fn workers_of(conf: &Config) -> u8
    ensures { result ≡ conf.now.workers }
{
    conf.workers
}

/// Makes the lines of a text, as a configuration sets up the workers, whose numbers begin with `first`, and writes the events of each.
///
/// So many lines of the script stand before the text: at most 67,108,864.
pub fn replay_lines<W: Hand, K: Sink>(
    alloc: Global,
    conf: Config,
    first: u64,
    before: u64,
    text: &[u8],
    out: &mut K,
) -> Result<Ending, Stop>
    requires few { length text.now ≤ longest_input }
    requires few_before { before ≤ longest_input }
    ensures ends { IfOk result (EndsLines (setup_of conf first) before (lines_of text.now) (K.taken out.old) (K.taken out.new)) }
    ensures some { OnErr result (MakesSome (setup_of conf first) (lines_of text.now) (K.taken out.old) (K.taken out.new)) }
    ensures cause { IfErr result (HasStopped (K.faults out.old) (K.faults out.new) (K.refusals out.old) (K.refusals out.new)) }
    ensures calm { OnOk result (IsCalm (K.faults out.old) (K.faults out.new) (K.refusals out.old) (K.refusals out.new)) }
{
    // the journal of lines is lawful, and it shows where a worker is worn
    journals_are_lawful();
    worn_is_told();
    sets_up(&conf);
    let workers = workers_of(&conf);
    let mut cluster: Cluster<W> = Cluster::new(alloc, conf, first)?;
    let mut rest = text;
    let mut number = before + 1;
    while rest.len() > 0 {
        let line = match admit(alloc, &cluster, workers, first_line(rest)) {
            Ok(line) => line,
            Err(LineFault::NoMemory) => return Err(Stop::NoMemory),
            Err(LineFault::Rule { rule, at }) => {
                return Ok(Ending::Faulty(Fault {
                    line: number,
                    rule,
                    at,
                }));
            }
        };
        match make(&mut cluster, line)? {
            Turn::Made(events) => write_events(alloc, &events, out)?,
            Turn::Worn(events) => {
                write_events(alloc, &events, out)?;
                return Ok(Ending::Worn);
            }
        }
        rest = rest_after(rest);
        number += 1;
    }
    Ok(Ending::All)
}

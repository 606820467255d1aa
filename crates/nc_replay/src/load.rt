//! The command `load`: the script of a seed and a size is replayed, and the lines of its journal are counted.
//!
//! The journal lies in memory until it was counted. Below stand the replay of a script and `nc_load`; above stands the top call.
ghost use Rattle.std.specs.Prelude.{◌≡◌, ◌≢◌, ◌≤◌, ◌⊎◌, IfOk, IfErr, OnOk, IsErrOf};
ghost use Rattle.nc_outside.specs.Fault.{HasRisen};
ghost use Rattle.nc_replay.specs.Input.{HasStopped, IsCalm};
ghost use Rattle.nc_replay.specs.Load.{lines_with, summary, LoadsAs, LoadEnds, CutsOffCounts};
ghost use Rattle.nc_replay.specs.Top.{IsStatus};
ghost use Rattle.nc_replay.specs.declared.making.Stop.TheVariants.{Sink as SinkStop, NoMemory as NoMemoryStop};

use crate::answer::put_field;
use crate::command::{End, replay_text};
use crate::input::write_all;
use crate::making::Stop;
use crate::script::{first_line, rest_after};
use nc_crew::Crewman;
use nc_load::make_script;
use nc_outside::{MemSink, Sink};
use nc_types::{List, NoMemory};
use std::alloc::Global;

/// How a load ends.
#[derive(Clone, Copy, Debug, PartialEq, Eq)]
pub enum Loaded {
    /// Every line was made, and the journal's lines were counted.
    Counted,
    /// A line broke a rule.
    Refused,
    /// The configuration was refused.
    Misconfigured,
    /// A line would have called on a worn worker.
    WornOut,
}

/// How many lines of a text begin with some bytes.
fn count_lines(text: &[u8], front: &[u8]) -> u64
    ensures { result ≡ lines_with front.now text.now }
{
    let mut rest = text;
    let mut count = 0;
    while rest.len() > 0 {
        if first_line(rest).starts_with(front) {
            count += 1;
        }
        rest = rest_after(rest);
    }
    count
}

/// The line that tells of a load with this journal.
fn summary(alloc: Global, seed: u64, size: u32, journal: &[u8]) -> Result<Vec<u8>, NoMemory>
    ensures { IfOk result (λ text. text.items ≡ summary seed size journal.now) }
{
    let mut text = Vec::new(alloc);
    put_field(&mut text, b"load seed=", seed)?;
    put_field(&mut text, b" size=", u64::from(size))?;
    put_field(&mut text, b" stored=", count_lines(journal, b"stored "))?;
    put_field(&mut text, b" sent=", count_lines(journal, b"sent "))?;
    put_field(&mut text, b" left=", count_lines(journal, b"left "))?;
    put_field(&mut text, b" ended=", count_lines(journal, b"ended "))?;
    put_field(&mut text, b" quiet=", count_lines(journal, b"quiet"))?;
    text.push(b'\n')?;
    Ok(text)
}

/// Replays the script of a seed and a size, and writes how many lines of some kinds its journal has.
///
/// Where it errs for want of memory nothing was written.
fn count_load<K: Sink>(alloc: Global, seed: u64, size: u32, out: &mut K) -> Result<Loaded, Stop>
    requires { size ≤ 65535 }
    ensures loaded { IfOk result (λ loaded. LoadsAs loaded seed size (K.taken out.old) (K.taken out.new)) }
    ensures cut_off { IsErrOf result SinkStop → CutsOffCounts seed size (K.taken out.old) (K.taken out.new) }
    ensures unwritten { IsErrOf result NoMemoryStop → K.taken out.new ≡ K.taken out.old }
    ensures cause { IfErr result (HasStopped (K.faults out.old) (K.faults out.new) (K.refusals out.old) (K.refusals out.new)) }
    ensures calm { OnOk result (IsCalm (K.faults out.old) (K.faults out.new) (K.refusals out.old) (K.refusals out.new)) }
{
    let script = make_script(alloc, seed, size)?;
    let mut journal = MemSink::new(alloc, List::new(alloc));
    match replay_text::<Crewman, MemSink>(alloc, 0, script.as_slice(), &mut journal) {
        Ok(End::Passed) => {
            let text = summary(alloc, seed, size, journal.bytes())?;
            write_all(out, &text)?;
            Ok(Loaded::Counted)
        }
        Ok(End::Refused) => Ok(Loaded::Refused),
        Ok(End::Misconfigured) => Ok(Loaded::Misconfigured),
        Ok(End::WornOut) => Ok(Loaded::WornOut),
        Err(_) => Err(Stop::NoMemory),
    }
}

/// Runs a load, and gives the status.
pub fn load<K: Sink>(alloc: Global, seed: u64, size: u32, out: &mut K) -> u8
    requires { size ≤ 65535 }
    ensures status { IsStatus result }
    ensures ends { LoadEnds result seed size (K.taken out.old) (K.taken out.new) }
    ensures unwritten { result ≡ 5
        → HasRisen (K.faults out.old) (K.faults out.new) ⊎ HasRisen (K.refusals out.old) (K.refusals out.new) }
    ensures unwritten_always { result ≢ 5 → IsCalm (K.faults out.old) (K.faults out.new) (K.refusals out.old) (K.refusals out.new) }
{
    match count_load(alloc, seed, size, out) {
        Ok(Loaded::Counted) => 0,
        Ok(Loaded::Refused) => 3,
        Ok(Loaded::Misconfigured) => 8,
        Ok(Loaded::WornOut) => 9,
        Err(Stop::Sink) => 5,
        Err(Stop::NoMemory) => 6,
    }
}

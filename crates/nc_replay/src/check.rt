//! The command `check`: the whole input is a configuration, which is accepted or has a first fault.
//!
//! Below stand the reading of the input, `nc_conf` and the answers; above stands the top call.
ghost use Rattle.std.specs.Prelude.{◌≡◌, ◌≢◌, ◌≤◌, ◌⊎◌, ◌+◌, IfOk, IfErr, OnOk, OnErr, IsErrOf};
ghost use Rattle.nc_outside.specs.Fault.{HasRisen};
ghost use Rattle.nc_replay.specs.Input.{longest_input, ReadsUpTo, ReadsTooMuch, ReadsSome, HasStopped, IsCalm};
ghost use Rattle.nc_replay.specs.Top.{IsStatus, IsUnread, JudgesAs, CutsOffVerdict, Accepts, Rejects, CutsOffCheck};
ghost use Rattle.nc_replay.specs.declared.making.Stop.TheVariants.{Sink as SinkStop, NoMemory as NoMemoryStop};

use crate::answer::{write_accepted, write_misconfigured};
use crate::fault::Misconfigured;
use crate::input::{ReadFault, read_all};
use crate::making::Stop;
use nc_conf::{ConfFault, read_config};
use nc_outside::{Sink, Source};
use std::alloc::Global;

/// What a check says of a configuration.
#[derive(Clone, Copy, Debug, PartialEq, Eq)]
enum Verdict {
    /// It is accepted.
    Accepted,
    /// It has a fault.
    Rejected,
}

/// Judges a configuration and writes what was found.
fn judge<K: Sink>(alloc: Global, text: &[u8], out: &mut K) -> Result<Verdict, Stop>
    ensures verdict { IfOk result (λ verdict. JudgesAs verdict text.now (K.taken out.old) (K.taken out.new)) }
    ensures cut_off { IsErrOf result SinkStop → CutsOffVerdict text.now (K.taken out.old) (K.taken out.new) }
    ensures unwritten { IsErrOf result NoMemoryStop → K.taken out.new ≡ K.taken out.old }
    ensures cause { IfErr result (HasStopped (K.faults out.old) (K.faults out.new) (K.refusals out.old) (K.refusals out.new)) }
    ensures calm { OnOk result (IsCalm (K.faults out.old) (K.faults out.new) (K.refusals out.old) (K.refusals out.new)) }
{
    match read_config(alloc, text) {
        Ok(config) => {
            write_accepted(alloc, &config, out)?;
            Ok(Verdict::Accepted)
        }
        Err(ConfFault::Rule { rule, at }) => {
            write_misconfigured(alloc, Misconfigured { rule, at }, out)?;
            Ok(Verdict::Rejected)
        }
        Err(ConfFault::NoMemory) => Err(Stop::NoMemory),
    }
}

/// ReadsSoFar a configuration from the input and judges it, and gives the status.
pub fn check<S: Source, K: Sink>(alloc: Global, input: &mut S, out: &mut K) -> u8
    ensures status { IsStatus result }
    ensures command { (result ≢ 2) × (result ≢ 3) × (result ≢ 9) }
    ensures accepted { result ≡ 0
        → Accepts (S.left input.old) (S.left input.new) (S.given input.old) (S.given input.new)
        (K.taken out.old) (K.taken out.new) }
    ensures rejected { result ≡ 8
        → Rejects (S.left input.old) (S.left input.new) (S.given input.old) (S.given input.new)
        (K.taken out.old) (K.taken out.new) }
    ensures unread { result ≡ 4 → HasRisen (S.faults input.old) (S.faults input.new) }
    ensures unread_always { result ≢ 4 → S.faults input.new ≡ S.faults input.old }
    ensures unread_left { result ≡ 4 → ReadsUpTo longest_input
        (S.left input.old) (S.left input.new) (S.given input.old) (S.given input.new) }
    ensures unwritten { result ≡ 5
        → HasRisen (K.faults out.old) (K.faults out.new) ⊎ HasRisen (K.refusals out.old) (K.refusals out.new) }
    ensures unwritten_always { result ≢ 5 → IsCalm (K.faults out.old) (K.faults out.new) (K.refusals out.old) (K.refusals out.new) }
    ensures cut_off { result ≡ 5
        → CutsOffCheck (S.left input.old) (S.left input.new) (S.given input.old) (S.given input.new)
        (K.taken out.old) (K.taken out.new) }
    ensures too_long { result ≡ 7 → ReadsTooMuch
        (S.left input.old) (S.left input.new) (S.given input.old) (S.given input.new) }
    ensures reads { ReadsUpTo (longest_input + 1) (S.left input.old) (S.left input.new) (S.given input.old) (S.given input.new)
        ⊎ ReadsSome (S.left input.old) (S.left input.new) (S.given input.old) (S.given input.new) }
    ensures whole { IsUnread result ⊎ ReadsSome (S.left input.old) (S.left input.new) (S.given input.old) (S.given input.new) }
    ensures silent { (result ≡ 4) ⊎ ((result ≡ 6) ⊎ (result ≡ 7)) → K.taken out.new ≡ K.taken out.old }
{
    let text = match read_all(alloc, input) {
        Ok(text) => text,
        Err(ReadFault::Failed) => return 4,
        Err(ReadFault::TooLong) => return 7,
        Err(ReadFault::NoMemory) => return 6,
    };
    match judge(alloc, &text, out) {
        Ok(Verdict::Accepted) => 0,
        Ok(Verdict::Rejected) => 8,
        Err(Stop::Sink) => 5,
        Err(Stop::NoMemory) => 6,
    }
}

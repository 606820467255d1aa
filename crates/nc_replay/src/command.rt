//! The top call: it runs the command that the words are, over any source and any sink.
//!
//! `main` makes the real ones and calls it. Below stand the reading of the input, the plan of a script, the replay of its
//! lines, and the check of a configuration.
ghost use Rattle.std.specs.Prelude.{◌≡◌, ◌≢◌, ◌≤◌, ◌⊎◌, ◌+◌, ℕ, length, map, string_bytes, IfOk, IfErr, OnOk, OnErr};
ghost use Rattle.nc_outside.specs.Fault.{HasRisen};
ghost use Rattle.nc_cli.specs.Words.{IsCommand, IsLoad, usage_text};
ghost use Rattle.nc_replay.specs.declared.command.Task.TheVariants.{Replay, Check, Load, Usage};
ghost use Rattle.nc_replay.specs.Input.{longest_input, ReadsUpTo, ReadsTooMuch, ReadsSome, HasStopped, IsCalm, Adds, AddsPrefix};
ghost use Rattle.nc_replay.specs.Load.{LoadEnds};
ghost use Rattle.nc_load.specs.Script.{script as load_script};
ghost use Rattle.nc_replay.specs.Top.{IsReplay, IsCheck, IsRun, IsTask, Replays, Refuses, WearsOut, Misconfigures, Accepts, Rejects, CutsOff, CutsOffCheck};
ghost use Rattle.nc_replay.specs.Top.{EndsAs, CutsOffSome, IsStatus, IsUnread, OfAllInput, PassedBy, RefusedBy, WornBy, MisconfiguredBy, RejectedBy, MustBeShort};

use crate::answer::{write_fault, write_misconfigured};
use crate::check::check;
use crate::input::{ReadFault, read_all, write_all};
use crate::laws::{one_configuration, one_end};
use crate::load::load;
use crate::making::{Ending, Stop, replay_lines};
use crate::plan::{PlanFault, plan_of};
use nc_cli::{Command, read_words, usage};
use nc_crew::Crewman;
use nc_floor::Hand;
use nc_outside::{Sink, Source};
use std::alloc::Global;

/// How the replay of a script that could be written ends.
#[derive(Clone, Copy, Debug, PartialEq, Eq)]
pub enum End {
    /// Every line was made.
    Passed,
    /// A line broke a rule.
    Refused,
    /// The configuration was refused.
    Misconfigured,
    /// A line would have called on a worn worker.
    WornOut,
}

/// Replays a script and writes its fault, if it has one. The numbers that workers draw begin with `first`.
pub fn replay_text<W: Hand, K: Sink>(
    alloc: Global,
    first: u64,
    script: &[u8],
    out: &mut K,
) -> Result<End, Stop>
    requires { length script.now ≤ longest_input }
    ensures end { IfOk result (λ end. EndsAs end first script.now (K.taken out.old) (K.taken out.new)) }
    ensures some { OnErr result (CutsOffSome first script.now (K.taken out.old) (K.taken out.new)) }
    ensures cause { IfErr result (HasStopped (K.faults out.old) (K.faults out.new) (K.refusals out.old) (K.refusals out.new)) }
    ensures calm { OnOk result (IsCalm (K.faults out.old) (K.faults out.new) (K.refusals out.old) (K.refusals out.new)) }
{
    let plan = match plan_of(alloc, script) {
        Ok(plan) => plan,
        Err(PlanFault::Misconfigured(fault)) => {
            write_misconfigured(alloc, fault, out)?;
            return Ok(End::Misconfigured);
        }
        Err(PlanFault::NoMemory) => return Err(Stop::NoMemory),
    };
    match replay_lines::<W, K>(alloc, plan.config, first, plan.before, plan.lines, out)? {
        Ending::All => Ok(End::Passed),
        Ending::Worn => Ok(End::WornOut),
        Ending::Faulty(fault) => {
            write_fault(alloc, fault, out)?;
            Ok(End::Refused)
        }
    }
}

/// Reads a script from the input and replays it, and gives the exit status (docs/JOURNAL.md).
///
/// The numbers that workers draw begin with `first`, and those of a worker end at 2^63: then the status is 9.
/// The other statuses are those of [`top`].
pub fn replay<S: Source, K: Sink>(alloc: Global, first: u64, input: &mut S, out: &mut K) -> u8
    ensures status { IsStatus result }
    ensures command { result ≢ 2 }
    ensures passed { result ≡ 0
        → Replays first (S.left input.old) (S.left input.new) (S.given input.old) (S.given input.new)
        (K.taken out.old) (K.taken out.new) }
    ensures refused { result ≡ 3
        → Refuses first (S.left input.old) (S.left input.new) (S.given input.old) (S.given input.new)
        (K.taken out.old) (K.taken out.new) }
    ensures worn { result ≡ 9
        → WearsOut first (S.left input.old) (S.left input.new) (S.given input.old) (S.given input.new)
        (K.taken out.old) (K.taken out.new) }
    ensures misconfigured { result ≡ 8
        → Misconfigures (S.left input.old) (S.left input.new) (S.given input.old) (S.given input.new)
        (K.taken out.old) (K.taken out.new) }
    ensures unread { result ≡ 4 → HasRisen (S.faults input.old) (S.faults input.new) }
    ensures unread_always { result ≢ 4 → S.faults input.new ≡ S.faults input.old }
    ensures unread_left { result ≡ 4 → ReadsUpTo longest_input
        (S.left input.old) (S.left input.new) (S.given input.old) (S.given input.new) }
    ensures unwritten { result ≡ 5
        → HasRisen (K.faults out.old) (K.faults out.new) ⊎ HasRisen (K.refusals out.old) (K.refusals out.new) }
    ensures unwritten_always { result ≢ 5 → IsCalm (K.faults out.old) (K.faults out.new) (K.refusals out.old) (K.refusals out.new) }
    ensures cut_off { result ≡ 5
        → CutsOff first (S.left input.old) (S.left input.new) (S.given input.old) (S.given input.new)
        (K.taken out.old) (K.taken out.new) }
    ensures out_of_memory { result ≡ 6 → (K.taken out.new ≡ K.taken out.old) ⊎
        CutsOff first (S.left input.old) (S.left input.new) (S.given input.old) (S.given input.new)
        (K.taken out.old) (K.taken out.new) }
    ensures too_long { result ≡ 7 → ReadsTooMuch
        (S.left input.old) (S.left input.new) (S.given input.old) (S.given input.new) }
    ensures reads { ReadsUpTo (longest_input + 1) (S.left input.old) (S.left input.new) (S.given input.old) (S.given input.new)
        ⊎ ReadsSome (S.left input.old) (S.left input.new) (S.given input.old) (S.given input.new) }
    ensures whole { IsUnread result ⊎ ReadsSome (S.left input.old) (S.left input.new) (S.given input.old) (S.given input.new) }
    ensures silent { (result ≡ 4) ⊎ (result ≡ 7) → K.taken out.new ≡ K.taken out.old }
{
    let text = match read_all(alloc, input) {
        Ok(text) => text,
        Err(ReadFault::Failed) => return 4,
        Err(ReadFault::TooLong) => return 7,
        Err(ReadFault::NoMemory) => return 6,
    };
    match replay_text::<Crewman, K>(alloc, first, &text, out) {
        Ok(End::Passed) => 0,
        Ok(End::Refused) => 3,
        Ok(End::Misconfigured) => 8,
        Ok(End::WornOut) => 9,
        Err(Stop::Sink) => 5,
        Err(Stop::NoMemory) => 6,
    }
}

/// What the top call does for some words.
#[derive(Clone, Copy, Debug, PartialEq, Eq)]
enum Task {
    Replay,
    Check,
    Load { seed: u64, size: u32 },
    Usage,
}

fn task_of(words: &[String]) -> Task
    ensures { IsTask (map string_bytes words.now) result }
{
    match read_words(words) {
        Command::Replay => Task::Replay,
        Command::Check => Task::Check,
        Command::Load { seed, size } => Task::Load { seed, size },
        Command::Usage => Task::Usage,
    }
}

/// Runs a command, and gives the exit status.
fn run<S: Source, K: Sink>(alloc: Global, command: Task, input: &mut S, out: &mut K) -> u8
    requires few { (seed size : ℕ) → command ≡ Load seed size → size ≤ 65535 }
    ensures status { IsStatus result }
    ensures passed { command ≡ Replay → result ≡ 0
        → Replays 0 (S.left input.old) (S.left input.new) (S.given input.old) (S.given input.new)
        (K.taken out.old) (K.taken out.new) }
    ensures accepted { command ≡ Check → result ≡ 0
        → Accepts (S.left input.old) (S.left input.new) (S.given input.old) (S.given input.new)
        (K.taken out.old) (K.taken out.new) }
    ensures usage { result ≡ 2 → (command ≡ Usage) × Adds usage_text (K.taken out.old) (K.taken out.new) }
    ensures usage_always { command ≡ Usage → (result ≡ 2) ⊎ (result ≡ 5) }
    ensures untouched { command ≡ Usage → input.new ≡ input.old }
    ensures loaded { (seed size : ℕ) → command ≡ Load seed size
        → (input.new ≡ input.old) × LoadEnds result seed size (K.taken out.old) (K.taken out.new) }
    ensures refused { command ≡ Replay → result ≡ 3
        → Refuses 0 (S.left input.old) (S.left input.new) (S.given input.old) (S.given input.new)
        (K.taken out.old) (K.taken out.new) }
    ensures worn { command ≡ Replay → result ≡ 9
        → WearsOut 0 (S.left input.old) (S.left input.new) (S.given input.old) (S.given input.new)
        (K.taken out.old) (K.taken out.new) }
    ensures unrefused { command ≡ Check → (result ≢ 3) × (result ≢ 9) }
    ensures misconfigured { command ≡ Replay → result ≡ 8
        → Misconfigures (S.left input.old) (S.left input.new) (S.given input.old) (S.given input.new)
        (K.taken out.old) (K.taken out.new) }
    ensures rejected { command ≡ Check → result ≡ 8
        → Rejects (S.left input.old) (S.left input.new) (S.given input.old) (S.given input.new)
        (K.taken out.old) (K.taken out.new) }
    ensures unread { result ≡ 4 → HasRisen (S.faults input.old) (S.faults input.new) }
    ensures unread_always { result ≢ 4 → S.faults input.new ≡ S.faults input.old }
    ensures unread_left { result ≡ 4 → ReadsUpTo longest_input
        (S.left input.old) (S.left input.new) (S.given input.old) (S.given input.new) }
    ensures unwritten { result ≡ 5
        → HasRisen (K.faults out.old) (K.faults out.new) ⊎ HasRisen (K.refusals out.old) (K.refusals out.new) }
    ensures unwritten_always { result ≢ 5 → IsCalm (K.faults out.old) (K.faults out.new) (K.refusals out.old) (K.refusals out.new) }
    ensures cut_off { command ≡ Replay → result ≡ 5
        → CutsOff 0 (S.left input.old) (S.left input.new) (S.given input.old) (S.given input.new)
        (K.taken out.old) (K.taken out.new) }
    ensures check_cut_off { command ≡ Check → result ≡ 5
        → CutsOffCheck (S.left input.old) (S.left input.new) (S.given input.old) (S.given input.new)
        (K.taken out.old) (K.taken out.new) }
    ensures usage_cut_off { command ≡ Usage → result ≡ 5 → AddsPrefix usage_text (K.taken out.old) (K.taken out.new) }
    ensures out_of_memory { result ≡ 6 → (K.taken out.new ≡ K.taken out.old) ⊎ ((command ≡ Replay) ×
        CutsOff 0 (S.left input.old) (S.left input.new) (S.given input.old) (S.given input.new)
        (K.taken out.old) (K.taken out.new)) }
    ensures too_long { result ≡ 7 → ReadsTooMuch
        (S.left input.old) (S.left input.new) (S.given input.old) (S.given input.new) }
    ensures reads { (command ≡ Replay) ⊎ (command ≡ Check)
        → ReadsUpTo (longest_input + 1) (S.left input.old) (S.left input.new) (S.given input.old) (S.given input.new)
        ⊎ ReadsSome (S.left input.old) (S.left input.new) (S.given input.old) (S.given input.new) }
    ensures whole { (command ≡ Replay) ⊎ (command ≡ Check) → IsUnread result
        ⊎ ReadsSome (S.left input.old) (S.left input.new) (S.given input.old) (S.given input.new) }
    ensures silent { (result ≡ 4) ⊎ (result ≡ 7) → K.taken out.new ≡ K.taken out.old }
{
    match command {
        Task::Replay => replay(alloc, 0, input, out),
        Task::Check => check(alloc, input, out),
        Task::Load { seed, size } => load(alloc, seed, size, out),
        Task::Usage => match write_all(out, usage()) {
            Ok(()) => 2,
            Err(_) => 5,
        },
    }
}

/// Runs the command that the words are, and gives the exit status (docs/JOURNAL.md).
///
/// `replay` and `check` read the whole input first, at most 67,108,864 bytes, and `load` reads nothing.
/// `replay` writes the journal of a script's lines, `check` says whether a configuration is accepted, and `load` counts
/// lines of the journal of a script that is made from two numbers (docs/LOAD.md):
/// - 0: every line was made, or the configuration is accepted and `ok workers=N locations=M` was written;
/// - 2: the words are no command, and the usage was written;
/// - 3: a line breaks a rule, and `fault line=L rule=R at=P` stands behind the journal of those before it;
/// - 4: the source failed; 5: the sink failed or took nothing; 6: there was no memory; 7: the input is longer;
/// - 8: the configuration is refused, and `config rule=R at=P` was written;
/// - 9: a line would call on a worker that has drawn half of its numbers, and the journal of what was made before was written.
pub fn top<S: Source, K: Sink>(alloc: Global, words: &[String], input: &mut S, out: &mut K) -> u8
    ensures status { IsStatus result }

    // 0 comes only where all of the input was read, and every line of it was made or it is accepted as a configuration.
    ensures passed { IsReplay (map string_bytes words.now) → result ≡ 0
        → Replays 0 (S.left input.old) (S.left input.new) (S.given input.old) (S.given input.new)
        (K.taken out.old) (K.taken out.new) }
    ensures passed_always { IsReplay (map string_bytes words.now)
        → OfAllInput (PassedBy 0 result) (S.left input.old) (S.given input.old) (S.given input.new) }
    ensures accepted { IsCheck (map string_bytes words.now) → result ≡ 0
        → Accepts (S.left input.old) (S.left input.new) (S.given input.old) (S.given input.new)
        (K.taken out.old) (K.taken out.new) }

    // 2 comes exactly where the words are no command, but where the usage can't be written; the input isn't touched then, nor by a load.
    ensures usage { result ≡ 2 → (IsCommand (map string_bytes words.now) → ⊥) × Adds usage_text (K.taken out.old) (K.taken out.new) }
    ensures usage_always { (IsCommand (map string_bytes words.now) → ⊥) → (result ≡ 2) ⊎ (result ≡ 5) }
    ensures untouched { (IsRun (map string_bytes words.now) → ⊥) → input.new ≡ input.old }

    // A load is of the script that its numbers make, and tells how many lines of some kinds its journal has.
    ensures loaded { (seed size : ℕ) → IsLoad (map string_bytes words.now) seed size
        → LoadEnds result seed size (K.taken out.old) (K.taken out.new) }
    ensures loaded_always { (seed size : ℕ) → IsLoad (map string_bytes words.now) seed size
        → PassedBy 0 result (load_script seed size) }

    // 3 comes exactly at the first line of a script that breaks a rule, but where the work stopped.
    ensures refused { IsReplay (map string_bytes words.now) → result ≡ 3
        → Refuses 0 (S.left input.old) (S.left input.new) (S.given input.old) (S.given input.new)
        (K.taken out.old) (K.taken out.new) }
    ensures unrefused { IsCheck (map string_bytes words.now) → (result ≢ 3) × (result ≢ 9) }
    ensures refused_always { IsReplay (map string_bytes words.now)
        → OfAllInput (RefusedBy 0 result) (S.left input.old) (S.given input.old) (S.given input.new) }

    // 9 comes exactly at the first line that would call on a worn worker, but where the work stopped.
    ensures worn { IsReplay (map string_bytes words.now) → result ≡ 9
        → WearsOut 0 (S.left input.old) (S.left input.new) (S.given input.old) (S.given input.new)
        (K.taken out.old) (K.taken out.new) }
    ensures worn_always { IsReplay (map string_bytes words.now)
        → OfAllInput (WornBy 0 result) (S.left input.old) (S.given input.old) (S.given input.new) }

    // 8 comes exactly where the configuration is refused, before any line is made, but where the work stopped.
    ensures misconfigured { IsReplay (map string_bytes words.now) → result ≡ 8
        → Misconfigures (S.left input.old) (S.left input.new) (S.given input.old) (S.given input.new)
        (K.taken out.old) (K.taken out.new) }
    ensures misconfigured_always { IsReplay (map string_bytes words.now)
        → OfAllInput (MisconfiguredBy result) (S.left input.old) (S.given input.old) (S.given input.new) }
    ensures rejected { IsCheck (map string_bytes words.now) → result ≡ 8
        → Rejects (S.left input.old) (S.left input.new) (S.given input.old) (S.given input.new)
        (K.taken out.old) (K.taken out.new) }
    ensures rejected_always { IsCheck (map string_bytes words.now)
        → OfAllInput (RejectedBy result) (S.left input.old) (S.given input.old) (S.given input.new) }

    // 4 comes exactly where the source failed, as its count tells; at most 67,108,864 bytes were read, which are left no more.
    ensures unread { result ≡ 4 → HasRisen (S.faults input.old) (S.faults input.new) }
    ensures unread_always { result ≢ 4 → S.faults input.new ≡ S.faults input.old }
    ensures unread_left { result ≡ 4 → ReadsUpTo longest_input
        (S.left input.old) (S.left input.new) (S.given input.old) (S.given input.new) }

    // 5 comes exactly where the sink failed or took nothing, as a count tells, and leaves a prefix of the text.
    ensures unwritten { result ≡ 5
        → HasRisen (K.faults out.old) (K.faults out.new) ⊎ HasRisen (K.refusals out.old) (K.refusals out.new) }
    ensures unwritten_always { result ≢ 5 → IsCalm (K.faults out.old) (K.faults out.new) (K.refusals out.old) (K.refusals out.new) }
    ensures cut_off { IsReplay (map string_bytes words.now) → result ≡ 5
        → CutsOff 0 (S.left input.old) (S.left input.new) (S.given input.old) (S.given input.new)
        (K.taken out.old) (K.taken out.new) }
    ensures check_cut_off { IsCheck (map string_bytes words.now) → result ≡ 5
        → CutsOffCheck (S.left input.old) (S.left input.new) (S.given input.old) (S.given input.new)
        (K.taken out.old) (K.taken out.new) }
    ensures usage_cut_off { (IsCommand (map string_bytes words.now) → ⊥) → result ≡ 5
        → AddsPrefix usage_text (K.taken out.old) (K.taken out.new) }

    // 6 leaves nothing, or a prefix of the text of a lawful journal.
    ensures out_of_memory { result ≡ 6 → (K.taken out.new ≡ K.taken out.old) ⊎ (IsReplay (map string_bytes words.now) ×
        CutsOff 0 (S.left input.old) (S.left input.new) (S.given input.old) (S.given input.new)
        (K.taken out.old) (K.taken out.new)) }

    // 7 comes exactly where the input is longer than 67,108,864 bytes, but where reading it failed; one byte more was read.
    ensures too_long { result ≡ 7 → ReadsTooMuch
        (S.left input.old) (S.left input.new) (S.given input.old) (S.given input.new) }
    ensures too_long_always { IsRun (map string_bytes words.now)
        → MustBeShort (S.left input.old) (S.given input.old) (S.given input.new) result }

    // At most 67,108,865 bytes are read, and what was read is left no more; all of the input but at 4, 6 and 7.
    ensures reads { IsRun (map string_bytes words.now)
        → ReadsUpTo (longest_input + 1) (S.left input.old) (S.left input.new) (S.given input.old) (S.given input.new)
        ⊎ ReadsSome (S.left input.old) (S.left input.new) (S.given input.old) (S.given input.new) }
    ensures whole { IsRun (map string_bytes words.now)
        → IsUnread result ⊎ ReadsSome (S.left input.old) (S.left input.new) (S.given input.old) (S.given input.new) }

    // After 4 and 7 nothing was written.
    ensures silent { (result ≡ 4) ⊎ (result ≡ 7) → K.taken out.new ≡ K.taken out.old }
{
    // no script is both configured and refused, and none ends in two ways, so 0, 3, 8 and 9 come always
    one_configuration();
    one_end();
    run(alloc, task_of(words), input, out)
}

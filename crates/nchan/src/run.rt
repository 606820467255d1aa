//! One run of the program, over a source that gave nothing yet and a sink that took nothing yet.
ghost use Rattle.std.specs.Prelude.{◌≡◌, ◌≢◌, ◌⊎◌, ℕ, [], map, string_bytes};
ghost use Rattle.nc_outside.specs.Fault.{HasRisen};
ghost use Rattle.nc_outside.specs.Pieces.{GivesMore};
ghost use Rattle.nc_cli.specs.Words.{IsCommand, IsLoad};
ghost use Rattle.nc_load.specs.Script.{script as load_script};
ghost use Rattle.nc_replay.specs.Input.{longest_input, IsCalm};
ghost use Rattle.nc_replay.specs.Top.{IsReplay, IsCheck, IsRun, IsStatus, PassedBy, RefusedBy, WornBy, MisconfiguredBy, RejectedBy};
ghost use Rattle.nchan.specs.Standard.{given_by, taken_by};
ghost use Rattle.nchan.specs.Run.{Replayed, Loaded, Refused, WornOut, Misconfigured, Accepted, Rejected, Explained, OfGiven};
ghost use Rattle.nchan.specs.Run.{Unread, TooLong, CutOff, CheckCutOff, UsageCutOff};

use crate::standard::{StdSink, StdSource};
use std::alloc::Global;
use std::io::{Read, Write};

/// Runs the command that the words are, and gives the exit status (docs/JOURNAL.md).
pub fn run<R: Read + Drop, W: Write + Drop>(
    alloc: Global,
    words: &[String],
    input: &mut StdSource<R>,
    out: &mut StdSink<W>,
) -> u8
    requires given_nothing { given_by input.old ≡ [] }
    requires took_nothing { taken_by out.old ≡ [] }
    ensures status { IsStatus result }

    // 0: what the source gave is one script or configuration, and what the sink took is its answer and nothing else.
    ensures replayed { IsReplay (map string_bytes words.now) → result ≡ 0 → Replayed (given_by input.new) (taken_by out.new) }
    ensures replayed_always { IsReplay (map string_bytes words.now) → OfGiven (PassedBy 0 result) (given_by input.new) }
    ensures accepted { IsCheck (map string_bytes words.now) → result ≡ 0 → Accepted (given_by input.new) (taken_by out.new) }

    // A load reads nothing, and tells by its status what came of the script that its numbers make.
    ensures loaded { (seed size : ℕ) → IsLoad (map string_bytes words.now) seed size
        → Loaded result seed size (given_by input.new) (taken_by out.new) }
    ensures loaded_always { (seed size : ℕ) → IsLoad (map string_bytes words.now) seed size
        → PassedBy 0 result (load_script seed size) }

    // 2: the words are no command.
    ensures explained { result ≡ 2 → (IsCommand (map string_bytes words.now) → ⊥) × Explained (given_by input.new) (taken_by out.new) }

    // 3: a line breaks a rule; it comes always then, but where the work stopped.
    ensures refused { IsReplay (map string_bytes words.now) → result ≡ 3 → Refused (given_by input.new) (taken_by out.new) }
    ensures unrefused { IsCheck (map string_bytes words.now) → (result ≢ 3) × (result ≢ 9) }
    ensures refused_always { IsReplay (map string_bytes words.now) → OfGiven (RefusedBy 0 result) (given_by input.new) }

    // 4 and 7: the source failed, as its count tells, and the input is too long; nothing was taken.
    ensures unread { result ≡ 4 → Unread (given_by input.new) (taken_by out.new) }
    ensures unread_cause { result ≡ 4 → HasRisen input.old.faults input.new.faults }
    ensures unread_always { result ≢ 4 → input.new.faults ≡ input.old.faults }
    ensures too_long { result ≡ 7 → TooLong (given_by input.new) (taken_by out.new) }
    ensures too_long_always { IsRun (map string_bytes words.now)
        → GivesMore longest_input [] (given_by input.new) → (result ≡ 7) ⊎ (result ≡ 6) }

    // 5: the sink failed or took nothing, as a count tells, behind a prefix of what it was to take.
    ensures cut_off { IsReplay (map string_bytes words.now) → result ≡ 5 → CutOff (given_by input.new) (taken_by out.new) }
    ensures check_cut_off { IsCheck (map string_bytes words.now) → result ≡ 5 → CheckCutOff (given_by input.new) (taken_by out.new) }
    ensures usage_cut_off { (IsCommand (map string_bytes words.now) → ⊥) → result ≡ 5
        → UsageCutOff (given_by input.new) (taken_by out.new) }
    ensures cut_cause { result ≡ 5 → HasRisen out.old.faults out.new.faults ⊎ HasRisen out.old.refusals out.new.refusals }
    ensures cut_always { result ≢ 5 → IsCalm out.old.faults out.new.faults out.old.refusals out.new.refusals }

    // 6: there was no memory, behind nothing or such a prefix.
    ensures out_of_memory { result ≡ 6 → (taken_by out.new ≡ [])
        ⊎ (IsReplay (map string_bytes words.now) × CutOff (given_by input.new) (taken_by out.new)) }

    // 8: the configuration is refused; it comes always then, but where the work stopped.
    ensures misconfigured { IsReplay (map string_bytes words.now) → result ≡ 8 → Misconfigured (given_by input.new) (taken_by out.new) }
    ensures misconfigured_always { IsReplay (map string_bytes words.now) → OfGiven (MisconfiguredBy result) (given_by input.new) }
    ensures rejected { IsCheck (map string_bytes words.now) → result ≡ 8 → Rejected (given_by input.new) (taken_by out.new) }
    ensures rejected_always { IsCheck (map string_bytes words.now) → OfGiven (RejectedBy result) (given_by input.new) }

    // 9: a line would call on a worn worker; it comes always then, but where the work stopped.
    ensures worn { IsReplay (map string_bytes words.now) → result ≡ 9 → WornOut (given_by input.new) (taken_by out.new) }
    ensures worn_always { IsReplay (map string_bytes words.now) → OfGiven (WornBy 0 result) (given_by input.new) }
{
    nc_replay::top(alloc, words, input, out)
}

//! The starts of reached worlds.
ghost use Rattle.nc_world_begins.specs.Begins.{AnswersStart, NobodyStartsAtRest, ReachedHasStarts, RestedStarts};

/// Each start knows its edges.
pub fn starts_hold()
    ensures { ReachedHasStarts }
{}

/// Whom the answer to an edge starts, it starts by its edges.
pub fn answers_start()
    ensures { AnswersStart }
{}

/// Where nothing is pending, nobody waits to be started.
pub fn rested_starts()
    ensures { RestedStarts }
{}

/// So nobody is starting then, by the journal.
pub fn nobody_starts_at_rest()
    ensures { NobodyStartsAtRest }
{}

//! The answer to a look.
ghost use Rattle.nc_world_calls.specs.Answering.{AnswerKnows, AnswerSendsWell, AnswerStands};

/// Its step writes only lawful sends.
pub fn answer_sends_well()
    ensures { AnswerSendsWell }
{}

/// It leaves each subscriber standing at the key of its spool.
pub fn answer_stands()
    ensures { AnswerStands }
{}

/// It keeps what is so of each place.
pub fn answer_knows()
    ensures { AnswerKnows }
{}

//! Each look is answered once.
ghost use Rattle.nc_owner_laws.specs.AnsweredOnce.{AnsweredOnce, OthersAnswerNew, PublishAnswersNew, RemovalAnswersNew};

/// Where each answer is to a look that wasn't answered before, each look is answered once.
pub fn answered_once()
    ensures { AnsweredOnce }
{}

/// Each step but a publish answers only a look that wasn't answered before.
pub fn others_answer_new()
    ensures { OthersAnswerNew }
{}

/// A publish answers no look.
pub fn publish_answers_new()
    ensures { PublishAnswersNew }
{}

/// Nor does a removal of a channel.
pub fn removal_answers_new()
    ensures { RemovalAnswersNew }
{}

//! Looks that were asked for, and their answers.
ghost use Rattle.nc_rests.specs.Answering.{AnswerRests, NextAnswers};
ghost use Rattle.nc_rests.specs.Asking.{AskedOnce, AsksStay, NextAsked};

/// The looks by a number are at the channel and past the id that it was drawn for.
pub fn asked_once()
    ensures { AskedOnce }
{}

/// A look that an owner takes next was asked for.
pub fn next_asked()
    ensures { NextAsked }
{}

/// What was asked for stays so.
pub fn asks_stay()
    ensures { AsksStay }
{}

/// The answer to a look that a worker takes next is that of a look in its owner's history.
pub fn next_answers()
    ensures { NextAnswers }
{}

/// The answer to its look lets a place rest.
pub fn answer_rests()
    ensures { AnswerRests }
{}

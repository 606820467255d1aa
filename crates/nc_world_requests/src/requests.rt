//! Requests and their answers.
ghost use Rattle.nc_world_requests.specs.Laws.{RequestsAreWaitedFor, WorkersWait, NumbersAreDrawn, AnswersAreTaken, QuietIsAnswered};

/// Each request is pending to an owner, or its answer is pending, or it was answered, and one of the three; it was asked once.
pub fn requests_are_waited_for()
    ensures { RequestsAreWaitedFor }
{}

/// A worker waits for exactly the requests that are pending, or whose answer is.
pub fn workers_wait()
    ensures { WorkersWait }
{}

/// A worker's requests have the numbers from the first one on.
pub fn numbers_are_drawn()
    ensures { NumbersAreDrawn }
{}

/// Each answer stands directly behind the taking of the alert that brings it, with its status and information.
pub fn answers_are_taken()
    ensures { AnswersAreTaken }
{}

/// At quiet each request was answered, once.
pub fn quiet_is_answered()
    ensures { QuietIsAnswered }
{}

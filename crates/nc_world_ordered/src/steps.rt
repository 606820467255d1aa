//! Steps of a worker's spools.
ghost use Rattle.nc_world_ordered.specs.Orderly.{AnswerOrderly, ArrivalOrderly, EdgeOrderly, LossOrderly, NoticeOrderly};

/// The answer to a look keeps the order.
pub fn answer_orderly()
    ensures { AnswerOrderly }
{}

/// A notice keeps it.
pub fn notice_orderly()
    ensures { NoticeOrderly }
{}

/// The answer to an edge keeps it, also where it starts a subscriber.
pub fn edge_orderly()
    ensures { EdgeOrderly }
{}

/// A channel that is gone keeps it: who is ended by it was subscribed and hasn't ended.
pub fn loss_orderly()
    ensures { LossOrderly }
{}

/// A subscriber that comes keeps it.
pub fn arrival_orderly()
    ensures { ArrivalOrderly }
{}

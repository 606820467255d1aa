//! What stands at each place of an owner's history, and what follows for its looks and its numbers.
ghost use Rattle.nc_owner_laws.specs.Behind.{NoticeIsFirst, ShowsLooks, AnswerTellsLook};
ghost use Rattle.nc_owner_laws.specs.Drawn.{DrawnOnce};
ghost use Rattle.nc_owner_laws.specs.InOrder.{NewInOrder, OthersInOrder, PublishInOrder, RemovalInOrder};

/// In the empty history each look and each number is in order.
pub fn new_in_order()
    ensures { NewInOrder }
{}

/// Each step but a publish keeps it.
pub fn others_in_order()
    ensures { OthersInOrder }
{}

/// A publish keeps it.
pub fn publish_in_order()
    ensures { PublishInOrder }
{}

/// A removal of a channel keeps it.
pub fn removal_in_order()
    ensures { RemovalInOrder }
{}

/// The message that woke a look is the first one stored behind it, and none that was buffered then is past the look's id.
pub fn notice_is_first()
    ensures { NoticeIsFirst }
{}

/// Where a look waits, its worker is marked, nothing was stored since, and none that is buffered now is past the look's id.
pub fn shows_looks()
    ensures { ShowsLooks }
{}

/// Each number of a look and of a grant is drawn once, and a look is made at one channel only.
pub fn drawn_once()
    ensures { DrawnOnce }
{}

/// The answer to a look that found nothing tells that look's number and floor.
pub fn answer_tells_look()
    ensures { AnswerTellsLook }
{}

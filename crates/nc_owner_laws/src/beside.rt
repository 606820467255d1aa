//! What a worker does beside its owner leaves what the owner stands for.
ghost use Rattle.nc_owner_laws.specs.Aside.{AsideStands, AsideInOrder, AsideAnswersNew};

/// The owner stands for its history with such an event more.
pub fn aside_stands()
    ensures { AsideStands }
{}

/// In that history all is in order.
pub fn aside_in_order()
    ensures { AsideInOrder }
{}

/// And each look is answered once.
pub fn aside_answers_new()
    ensures { AsideAnswersNew }
{}

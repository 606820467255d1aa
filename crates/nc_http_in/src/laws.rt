//! What holds of the items of bytes, and of a reader that is fed them in pieces.
//!
//! Each function does nothing: its contract is the law.
ghost use Rattle.nc_http_in.specs.Laws.{ItemStays, OneItem, OneList, ReadsNothing, ReadsPiece, TellsNext, StaysRead, LeavesRest, RestGrows};

/// An item that isn't neither stays the same, whatever follows.
pub fn item_stays()
    ensures { ItemStays }
{}

/// No bytes have two items.
pub fn one_item()
    ensures { OneItem }
{}

/// No bytes have two lists of items.
pub fn one_list()
    ensures { OneList }
{}

/// A new reader has read nothing.
pub fn reads_nothing()
    ensures { ReadsNothing }
{}

/// A piece that is fed comes behind all bytes that were fed.
pub fn reads_piece()
    ensures { ReadsPiece }
{}

/// What a reader answers is the next item of all bytes that were fed, in whatever pieces.
pub fn tells_next()
    ensures { TellsNext }
{}

/// Want of memory takes nothing from what was read.
pub fn stays_read()
    ensures { StaysRead }
{}

/// Behind a request that was answered a reader has all bytes that were fed and not yet answered.
pub fn leaves_rest()
    ensures { LeavesRest }
{}

/// So has it when more is fed, before it is asked again.
pub fn rest_grows()
    ensures { RestGrows }
{}

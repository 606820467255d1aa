//! A notice.
ghost use Rattle.nc_world_calls.specs.Noticing.{NoticeKnows, NoticeSendsWell, NoticeTreats};

/// A spool whose place was treated in its step holds in it.
pub fn notice_treats()
    ensures { NoticeTreats }
{}

/// Its step writes only lawful sends, and leaves each subscriber standing at the key of its spool.
pub fn notice_sends_well()
    ensures { NoticeSendsWell }
{}

/// It keeps what is so of each place.
pub fn notice_knows()
    ensures { NoticeKnows }
{}

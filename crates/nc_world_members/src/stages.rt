//! The stages of subscribers.
ghost use Rattle.nc_world_members.specs.Laws.{ReachedHasStages, SpoolsStand, MembersByStages, NobodyWaits, NobodyStarts};

/// Each subscriber's stage by the journal is the one that the spools of its worker say.
pub fn reached_has_stages()
    ensures { ReachedHasStages }
{}

/// Each subscriber in a spool stands by the journal with the list of the spool, at its cursor.
pub fn spools_stand()
    ensures { SpoolsStand }
{}

/// Where nothing is on its way between a worker and the owner of a channel, the members of this worker are those who stand or start
/// with it by the journal.
pub fn members_by_stages()
    ensures { MembersByStages }
{}

/// Between two steps nobody who was sent its one message waits for its end.
pub fn nobody_waits()
    ensures { NobodyWaits }
{}

/// Between two steps nobody is starting at a worker whose spools have no start left.
pub fn nobody_starts()
    ensures { NobodyStarts }
{}

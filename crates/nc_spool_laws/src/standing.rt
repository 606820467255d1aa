//! What holds of each spool between two calls.
ghost use Rattle.std.specs.Prelude.{List};
ghost use Rattle.nc_spool_state.specs.declared.kept.Held.{Held};
ghost use Rattle.nc_spool_laws.specs.Hearing.{AreHeard};
ghost use Rattle.nc_spool_laws.specs.Keys.{KeepsKeys};
ghost use Rattle.nc_spool_laws.specs.Order.{EqualKeysAreOne, KeepsOrder};
ghost use Rattle.nc_spool_laws.specs.Readers.{Climbs};
ghost use Rattle.nc_spool_laws.specs.Attended.{KeepsAll, AnyNews, AnyAnswer, NewsHeld, AnswerHeld, IsAttended, IsWhole, IsHeld};

/// Each call leaves someone in each spool.
pub fn stay_attended()
    ensures { KeepsAll AnyNews AnyAnswer IsAttended }
{}

/// Each call leaves the subscribers of each spool in ascending order.
pub fn stay_climbing()
    ensures { KeepsAll AnyNews AnyAnswer Climbs }
{}

/// Each call leaves a place for each name in each spool.
pub fn stay_whole()
    ensures { KeepsAll AnyNews AnyAnswer IsWhole }
{}

/// Each call leaves distinct names in the key of each spool, and a tag for each of them.
pub fn stay_fitting()
    ensures { KeepsKeys }
{}

/// Each call leaves the hold of each message that was found kept.
pub fn stay_held<H>()
    ensures { (kept : List (Held H)) → KeepsAll (NewsHeld kept) (AnswerHeld kept) (IsHeld kept) }
{}

/// Each call leaves the spools in ascending order of list and cursor, so no two have one key.
pub fn stay_ascending()
    ensures { KeepsOrder }
{}

/// Keys that are ordered as equal are one key.
pub fn equal_keys_are_one()
    ensures { EqualKeysAreOne }
{}

/// After a notice, and after a removal, no spool with the channel rests on an older answer.
pub fn hear_all()
    ensures { AreHeard }
{}

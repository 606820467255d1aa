//! Marks: what is told of a run of slots without looking at each.
ghost use Rattle.std.specs.Prelude.{◌≡◌, ◌+◌, ◌<◌, false};
ghost use Rattle.nc_buffer.specs.Marks.{sooner, no_mark, mark_of, mark_in, both, tells};
ghost use Rattle.nc_buffer.specs.declared.mark.Sought.TheVariants.{Past};

use crate::entry::Entry;
use nc_types::MsgId;

/// What is told of a run of slots: how many entries they keep, the soonest second at which one of these expires,
/// where 0 is never, whether one of them is spent, and the latest of their ids.
#[derive(Clone, Copy)]
pub(crate) struct Mark {
    pub kept: usize,
    pub soonest: u64,
    pub spent: bool,
    pub latest: MsgId,
}

/// What can be sought among the kept entries.
#[derive(Clone, Copy)]
pub(crate) enum Sought {
    /// Any entry.
    Any,
    /// One that expires at or before a second.
    Expired(u64),
    /// One that is spent.
    Spent,
    /// One past an id.
    Past(MsgId),
}

/// The sooner of two seconds, where 0 is never.
fn sooner(a: u64, b: u64) -> u64
    ensures { result ≡ sooner a b }
{
    if a == 0 || (b != 0 && b < a) { b } else { a }
}

impl Mark {
    /// The mark of slots that keep nothing.
    pub(crate) fn none() -> Mark
        ensures { result ≡ no_mark }
    {
        Mark {
            kept: 0,
            soonest: 0,
            spent: false,
            latest: MsgId::NONE,
        }
    }

    /// The mark of a slot that keeps an entry.
    pub(crate) fn of(entry: &Entry) -> Mark
        ensures { result ≡ mark_of entry.now }
    {
        Mark {
            kept: 1,
            soonest: entry.expires,
            spent: entry.is_spent(),
            latest: entry.id,
        }
    }

    /// The mark of a slot.
    pub(crate) fn of_slot(slot: &Option<Entry>) -> Mark
        ensures { result ≡ mark_in slot.now }
    {
        match slot {
            Some(entry) => Mark::of(entry),
            None => Mark::none(),
        }
    }

    /// The mark of two runs of slots.
    pub(crate) fn both(a: &Mark, b: &Mark) -> Mark
        requires { a.now.kept + b.now.kept < 18446744073709551616 }
        ensures { result ≡ both a.now b.now }
    {
        Mark {
            kept: a.kept + b.kept,
            soonest: sooner(a.soonest, b.soonest),
            spent: a.spent || b.spent,
            latest: if a.latest.past(&b.latest) {
                a.latest
            } else {
                b.latest
            },
        }
    }
}

impl Sought {
    /// One past an id. Slots that keep nothing tell of none, as no id is before [`NONE`](MsgId::NONE).
    pub(crate) fn past(id: &MsgId) -> Sought
        ensures past { result ≡ Past id.now }
        ensures quiet { tells result no_mark ≡ false }
    {
        Sought::Past(MsgId {
            time: id.time,
            tag: id.tag,
        })
    }

    /// Whether a mark tells of such an entry.
    pub(crate) fn is_told(&self, mark: &Mark) -> bool
        ensures { result ≡ tells self.now mark.now }
    {
        match self {
            Sought::Any => mark.kept != 0,
            Sought::Expired(now) => mark.soonest != 0 && mark.soonest <= *now,
            Sought::Spent => mark.spent,
            Sought::Past(after) => mark.latest.past(after),
        }
    }
}

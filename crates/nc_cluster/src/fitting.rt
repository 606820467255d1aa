//! Who comes with a line, and whether the line fits those before it.
ghost use Rattle.std.specs.Prelude.{◌≡◌, OnOk};
ghost use Rattle.nc_cluster.specs.PureLine.{pure_line};
ghost use Rattle.nc_cluster.specs.Comers.{comer, with_comer, noted, rule_of};

use nc_owner::{Member, Members};
use nc_script::Line;
use nc_types::NoMemory;

/// The subscriber that comes with a line, if one does.
pub(crate) fn comer(line: &Line) -> Option<Member>
    ensures { result ≡ comer (pure_line line.now) }
{
    match line {
        Line::Poll { w, k, .. } => Some(Member { from: *w, k: *k }),
        _ => None,
    }
}

/// Who comes is one of the subscribers from then on.
pub(crate) fn note(subscribers: &mut Members, comer: Option<Member>) -> Result<(), NoMemory>
    ensures { OnOk result (subscribers.new ≡ with_comer comer subscribers.old) }
{
    match comer {
        Some(member) => subscribers.insert(member),
        None => Ok(()),
    }
}

/// Rule 10, where the subscriber who comes is one already.
#[tactic(auto, using(crate::proofs::Coming::rule_broken, crate::proofs::Coming::rule_kept))]
pub(crate) fn rule_for(subscribers: &Members, comer: Option<Member>) -> Option<u8>
    ensures { result ≡ rule_of (noted subscribers.now) comer }
{
    match comer {
        Some(member) => {
            if subscribers.contains(&member) {
                Some(10)
            } else {
                None
            }
        }
        None => None,
    }
}

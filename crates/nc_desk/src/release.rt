//! At the end of a step the holds go back that nobody uses.
ghost use Rattle.std.specs.Prelude.{◌≡◌, OnOk, true};
ghost use Rattle.nc_worker_state.specs.Worker.{given_back};
ghost use Rattle.nc_scribe.specs.Scribe.{TellsMore, KeepsOwn};
ghost use Rattle.nc_desk.specs.Desk.{AreHeld};
ghost use Rattle.nc_desk.specs.Release.{released, idle_events, busy_desk};

use crate::desk::Desk;
use nc_journal::Event;
use nc_scribe::Scribe;
use nc_slots::Slots;
use nc_spool_state::Held;
use nc_types::NoMemory;

/// The event that a hold goes back.
fn released<H>(me: u8, held: &Held<H>) -> Event
    ensures { result ≡ released me held.now }
{
    Event::Released {
        w: u64::from(me),
        owner: u64::from(held.owner),
        g: held.g,
        slot: u64::from(held.slot),
    }
}

/// Gives back each hold that no spool uses, in ascending order of owner and grant.
pub fn release_idle<P: Slots>(
    desk: &mut Desk<P::Hold>,
    pool: &mut P,
    scribe: &mut Scribe<P::Hold>,
) -> Result<(), NoMemory>
    requires { AreHeld P.held desk.old.spools.kept }
    ensures tells { OnOk result (TellsMore scribe.old scribe.new (idle_events scribe.old.me desk.old.spools)) }
    ensures desk { OnOk result (desk.new ≡ busy_desk desk.old) }
    ensures held { OnOk result (AreHeld P.held desk.new.spools.kept) }
    ensures own { OnOk result (KeepsOwn P.held scribe.old scribe.new) }
    ensures slots { OnOk result (P.slots pool.new ≡ P.slots pool.old) }
    ensures holds { OnOk result (P.exact ≡ true → P.holds pool.new ≡ given_back (P.holds pool.old) (idle_events scribe.old.me desk.old.spools)) }
{
    while let Some(held) = desk.spools.idle_hold() {
        let event = released(scribe.me(), &held);
        pool.release(held.hold);
        scribe.tell(event)?;
    }
    Ok(())
}

//! A worker's own requests and subscribers.
ghost use Rattle.std.specs.Prelude.{◌≡◌, ◌<◌, [], OnOk, None};
ghost use Rattle.nc_alert.specs.Packet.{grant_of};
ghost use Rattle.nc_slots.specs.Slots.{HoldAt};
ghost use Rattle.nc_owner.specs.AlertLines.{alert_line};
ghost use Rattle.nc_spool.specs.Calls.{new_spools};
ghost use Rattle.nc_worker_state.specs.Desk.{is_waiting, without, replied, asked};
ghost use Rattle.nc_scribe.specs.Scribe.{KeepsOwn};
ghost use Rattle.nc_desk.specs.Desk.{told_desk, Serves};

use nc_alert::Outgoing;
use nc_journal::Event;
use nc_scribe::Scribe;
use nc_spool::Spools;
use nc_types::{Info, NoMemory};
use std::alloc::Global;

/// What a worker keeps beside its owner: the spools of its subscribers, the requests that wait for an answer, the newest
/// first, and the number of the next one. After want of memory it is only to be dropped.
#[derive(Drop)]
pub struct Desk<H> {
    pub(crate) spools: Spools<H>,
    pub(crate) waiting: Vec<u64>,
    pub(crate) requests: u64,
}

/// Whether a request is among those that wait.
fn is_waiting(r: u64, waiting: &[u64]) -> bool
    ensures { result ≡ is_waiting r waiting.now }
{
    waiting.iter().any(|x| *x == r)
}

/// A request waits no longer.
fn forget(r: u64, waiting: &mut Vec<u64>)
    ensures { waiting.new.items ≡ without r waiting.old.items }
{
    waiting.retain(|x| *x != r);
}

impl<H: Drop> Desk<H> {
    /// Nobody asks or subscribes yet, at one of `workers` workers. The numbers of looks and of requests begin with `first`.
    pub fn new(alloc: Global, workers: u8, first: u64) -> Desk<H>
        requires { 0 < workers }
        ensures spools { result.spools ≡ new_spools workers first }
        ensures waiting { result.waiting.items ≡ [] }
        ensures requests { result.requests ≡ first }
    {
        Desk {
            spools: Spools::new(alloc, workers, first),
            waiting: Vec::new(alloc),
            requests: first,
        }
    }

    /// The number that the next look or edge draws.
    pub fn looks(&self) -> u64
        ensures { result ≡ self.now.spools.next }
    {
        self.spools.next()
    }

    /// The number of the next request.
    pub fn requests(&self) -> u64
        ensures { result ≡ self.now.requests }
    {
        self.requests
    }

    /// The answer to a request comes. It goes on to who asked, if the request still waits.
    pub fn replied(
        &mut self,
        scribe: &mut Scribe<H>,
        r: u64,
        status: u16,
        info: Option<Info>,
    ) -> Result<(), NoMemory>
        ensures serves { OnOk result (Serves self.new scribe.old scribe.new (replied scribe.old.me r status info (told_desk self.old))) }
        ensures own { OnOk result ((held : H → HoldAt) → KeepsOwn held scribe.old scribe.new) }
        ensures spools { OnOk result (self.new.spools ≡ self.old.spools) }
    {
        if is_waiting(r, &self.waiting) {
            forget(r, &mut self.waiting);
            scribe.tell(Event::Answered {
                w: u64::from(scribe.me()),
                r,
                conn: None,
                status: u64::from(status),
                info,
                json: false,
                close: false,
            })?;
        }
        Ok(())
    }

    /// A request more waits, and worker `to` is asked for it.
    pub(crate) fn ask(
        &mut self,
        scribe: &mut Scribe<H>,
        outgoing: Outgoing<H>,
    ) -> Result<(), NoMemory>
        requires { grant_of outgoing.alert ≡ None }
        ensures serves { OnOk result (Serves self.new scribe.old scribe.new (asked outgoing.to (alert_line outgoing.alert) (told_desk self.old))) }
        ensures own { OnOk result ((held : H → HoldAt) → KeepsOwn held scribe.old scribe.new) }
        ensures spools { OnOk result (self.new.spools ≡ self.old.spools) }
    {
        let r = self.requests;
        let Some(next) = r.checked_add(1) else {
            return Err(NoMemory);
        };
        self.requests = next;
        self.waiting.insert(0, r)?;
        scribe.make(outgoing)?;
        Ok(())
    }
}

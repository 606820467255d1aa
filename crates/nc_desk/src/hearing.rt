//! What a worker hears of the owners whom its spools asked.
ghost use Rattle.std.specs.Prelude.{◌≡◌, ℕ, OnOk, IfSome};
ghost use Rattle.std.specs.Option.{option_map};
ghost use Rattle.nc_journal.specs.declared.alert.AlertLine.TheVariants as lines;
ghost use Rattle.nc_owner.specs.AlertLines.{answer_line};
ghost use Rattle.nc_slots.specs.Slots.{HoldAt};
ghost use Rattle.nc_worker_state.specs.Desk.{handled};
ghost use Rattle.nc_outbox.specs.Outboxes.{IsGranted};
ghost use Rattle.nc_scribe.specs.Scribe.{KeepsOwn};
ghost use Rattle.nc_desk.specs.Desk.{told_desk, found_of, Serves, KeepsHeld};

use crate::desk::Desk;
use nc_alert::Grant;
use nc_journal::EndedCause;
use nc_scribe::Scribe;
use nc_spool::Found;
use nc_spool_state::Held;
use nc_types::{ChanName, List, MsgId, NoMemory};

/// A message that came with a grant of an owner.
fn found_of<H>(owner: u8, grant: Grant<H>) -> Found<H>
    ensures { result ≡ found_of owner grant }
{
    Found {
        id: grant.id,
        held: Held {
            owner,
            g: grant.g,
            slot: grant.slot,
            hold: grant.hold,
        },
    }
}

/// The same, if a message was found.
fn found_in<H>(owner: u8, grant: Option<Grant<H>>) -> Option<Found<H>>
    ensures { result ≡ option_map (found_of owner) grant }
{
    match grant {
        Some(grant) => Some(found_of(owner, grant)),
        None => None,
    }
}

impl<H: Drop> Desk<H> {
    /// The answer of worker `from` to the look `no` comes.
    pub fn answered(
        &mut self,
        scribe: &mut Scribe<H>,
        from: u8,
        no: u64,
        q: u64,
        floor: u64,
        found: Option<Grant<H>>,
    ) -> Result<(), NoMemory>
        ensures serves { OnOk result (Serves self.new scribe.old scribe.new (handled scribe.old.me from (answer_line no q floor found) (told_desk self.old))) }
        ensures own { OnOk result ((held : H → HoldAt) → KeepsOwn held scribe.old scribe.new) }
        ensures held { OnOk result ((held : H → HoldAt) → IfSome found (IsGranted held from) → KeepsHeld held self.old self.new) }
    {
        let facts = self.spools.answered(no, q, floor, found_in(from, found))?;
        scribe.tell_facts(EndedCause::Answered, facts)?;
        Ok(())
    }

    /// The notice of worker `from` comes that a message was stored in a channel.
    pub fn noticed(
        &mut self,
        scribe: &mut Scribe<H>,
        from: u8,
        c: &ChanName,
        found: Grant<H>,
    ) -> Result<(), NoMemory>
        ensures serves { OnOk result (Serves self.new scribe.old scribe.new
            (handled scribe.old.me from (lines.Notice c.now found.id found.g found.slot) (told_desk self.old))) }
        ensures own { OnOk result ((held : H → HoldAt) → KeepsOwn held scribe.old scribe.new) }
        ensures held { OnOk result ((held : H → HoldAt) → IsGranted held from found → KeepsHeld held self.old self.new) }
    {
        let facts = self.spools.noticed(c, found_of(from, found))?;
        scribe.tell_facts(EndedCause::Answered, facts)?;
        Ok(())
    }

    /// The answer to the edge `no` comes.
    pub fn edged(
        &mut self,
        scribe: &mut Scribe<H>,
        no: u64,
        q: u64,
        floor: u64,
        last: MsgId,
    ) -> Result<(), NoMemory>
        ensures serves { OnOk result ((from : ℕ)
            → Serves self.new scribe.old scribe.new (handled scribe.old.me from (lines.EdgeAnswer no q floor last) (told_desk self.old))) }
        ensures own { OnOk result ((held : H → HoldAt) → KeepsOwn held scribe.old scribe.new) }
        ensures held { OnOk result ((held : H → HoldAt) → KeepsHeld held self.old self.new) }
    {
        let facts = self.spools.edged(no, q, floor, last)?;
        scribe.tell_facts(EndedCause::Answered, facts)?;
        Ok(())
    }

    /// The news comes that a channel was removed, of which these subscribers were members.
    pub fn gone(
        &mut self,
        scribe: &mut Scribe<H>,
        c: &ChanName,
        subs: &List<u64>,
    ) -> Result<(), NoMemory>
        ensures serves { OnOk result ((from : ℕ)
            → Serves self.new scribe.old scribe.new (handled scribe.old.me from (lines.Gone c.now subs.now) (told_desk self.old))) }
        ensures own { OnOk result ((held : H → HoldAt) → KeepsOwn held scribe.old scribe.new) }
        ensures held { OnOk result ((held : H → HoldAt) → KeepsHeld held self.old self.new) }
    {
        let facts = self.spools.gone(c, subs)?;
        scribe.tell_facts(EndedCause::Deleted, facts)?;
        Ok(())
    }
}

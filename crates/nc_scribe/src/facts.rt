//! What spools did is told.
ghost use Rattle.std.specs.Prelude.{◌≡◌, [], ◌∷◌, OnOk};
ghost use Rattle.nc_slots.specs.Slots.{HoldAt};
ghost use Rattle.nc_worker_state.specs.Deed.{told};
ghost use Rattle.nc_worker_state.specs.Spooled.{fact_deed, facts_deeds, ended_cause};
ghost use Rattle.nc_outbox.specs.Outboxes.{next_of};
ghost use Rattle.nc_scribe.specs.Scribe.{TellsMore, KeepsOwn, sent_event};

use crate::scribe::Scribe;
use nc_journal::{EndedCause, Event};
use nc_spool::{Fact, Sending};
use nc_types::{List, NoMemory};

/// Why a subscriber is ended: its channel was deleted, or what the call is for.
fn ended_cause(cause: EndedCause, deleted: bool) -> EndedCause
    ensures { result ≡ ended_cause cause deleted }
{
    if deleted { EndedCause::Deleted } else { cause }
}

impl<H: Drop> Scribe<H> {
    /// Tells that a message is sent.
    fn tell_sent(&mut self, sending: Sending) -> Result<(), NoMemory>
        ensures tells { OnOk result (TellsMore self.old self.new (sent_event self.old.me sending ∷ [])) }
        ensures own { OnOk result ((held : H → HoldAt) → KeepsOwn held self.old self.new) }
    {
        let w = u64::from(self.me());
        self.tell(Event::Sent {
            w,
            k: sending.k,
            i: sending.place as u64,
            c: sending.chan,
            id: sending.id,
            cur: sending.cursor,
            looks: sending.looks,
        })?;
        Ok(())
    }

    /// Tells one thing that a call of spools led to.
    fn tell_fact(&mut self, cause: EndedCause, fact: Fact) -> Result<(), NoMemory>
        ensures tells { OnOk result (TellsMore self.old self.new (told self.old.me (next_of self.old.outboxes) (fact_deed self.old.me cause fact ∷ []))) }
        ensures own { OnOk result ((held : H → HoldAt) → KeepsOwn held self.old self.new) }
    {
        let w = u64::from(self.me());
        match fact {
            Fact::Out(asking) => self.make(asking.into_outgoing())?,
            Fact::Started { k, cursor } => self.tell(Event::Started { w, k, cur: cursor })?,
            Fact::Sent(sending) => self.tell_sent(sending)?,
            Fact::Ended { k, deleted } => {
                let cause = ended_cause(cause, deleted);
                self.tell(Event::Ended { w, k, cause })?
            }
        }
        Ok(())
    }

    /// Tells what a call of spools led to, one thing behind the other. Whoever is ended by it is ended with this cause, but for deletions.
    pub fn tell_facts(&mut self, cause: EndedCause, facts: List<Fact>) -> Result<(), NoMemory>
        ensures tells { OnOk result (TellsMore self.old self.new (told self.old.me (next_of self.old.outboxes) (facts_deeds self.old.me cause facts))) }
        ensures own { OnOk result ((held : H → HoldAt) → KeepsOwn held self.old self.new) }
    {
        for fact in facts.into_vec() {
            self.tell_fact(cause, fact)?;
        }
        Ok(())
    }
}

//! What an owner did is told, with the alerts that it made.
ghost use Rattle.std.specs.Prelude.{◌≡◌, [], ◌∷◌, ◌++◌, OnOk, true};
ghost use Rattle.std.specs.List.{AllByRecursion};
ghost use Rattle.nc_journal.specs.declared.event.Event.{Event as EventAt};
ghost use Rattle.nc_owner.specs.AlertLines.{out_lines};
ghost use Rattle.nc_owner_laws.specs.Weave.{makes, weave};
ghost use Rattle.nc_slots.specs.Slots.{HoldAt};
ghost use Rattle.nc_outbox.specs.Outboxes.{next_of};
ghost use Rattle.nc_scribe.specs.Kinds.{is_grant, AreAside};
ghost use Rattle.nc_scribe.specs.Scribe.{TellsMore, KeepsOwn, AllGranted};
ghost use Rattle.nc_scribe.specs.Weaving.{TellsNext, TellsPart};

use crate::scribe::Scribe;
use nc_alert::Outgoing;
use nc_journal::Event;
use nc_owner::Done;
use nc_types::{List, NoMemory};
use std::collections::VecDeque;

/// Whether an event grants a hold.
fn is_grant(event: &Event) -> bool
    ensures { result ≡ is_grant event.now }
{
    matches!(event, Event::Granted { .. })
}

impl<H: Drop> Scribe<H> {
    /// Makes the next of some alerts, if there is one.
    fn make_next(&mut self, alerts: &mut VecDeque<Outgoing<H>>) -> Result<(), NoMemory>
        ensures { OnOk result (TellsNext self.old self.new alerts.old.items alerts.new.items) }
    {
        if let Some(outgoing) = alerts.pop_front() {
            self.make(outgoing)?;
        }
        Ok(())
    }

    /// Makes some alerts, one behind the other.
    fn make_all(&mut self, mut alerts: VecDeque<Outgoing<H>>) -> Result<(), NoMemory>
        ensures tells { OnOk result (TellsMore self.old self.new (makes self.old.me (next_of self.old.outboxes) (out_lines (alerts.items)))) }
        ensures own { OnOk result ((held : H → HoldAt) → AllGranted held self.old.me (alerts.items) → KeepsOwn held self.old self.new) }
    {
        while let Some(outgoing) = alerts.pop_front() {
            self.make(outgoing)?;
        }
        Ok(())
    }

    /// Tells some events of an owner, and behind each grant makes the next alert.
    fn tell_events(
        &mut self,
        events: List<Event>,
        alerts: &mut VecDeque<Outgoing<H>>,
    ) -> Result<(), NoMemory>
        requires { AreAside events }
        ensures { OnOk result (TellsPart self.old self.new events [] alerts.old.items alerts.new.items) }
    {
        for event in events.into_vec() {
            let grants = is_grant(&event);
            self.tell(event)?;
            if grants {
                self.make_next(alerts)?;
            }
        }
        Ok(())
    }

    /// Tells what an owner did: its events, behind each grant the making of the alert that carries it, and the other alerts last.
    pub fn weave(&mut self, done: Done<H>) -> Result<(), NoMemory>
        requires { AreAside done.events.events }
        ensures tells { OnOk result (TellsMore self.old self.new (weave self.old.me (next_of self.old.outboxes) done.events.events (out_lines done.alerts))) }
        ensures own { OnOk result ((held : H → HoldAt) → AllGranted held self.old.me done.alerts → KeepsOwn held self.old self.new) }
    {
        let mut alerts = VecDeque::from_vec(done.alerts.into_vec());
        self.tell_events(done.events.events, &mut alerts)?;
        self.make_all(alerts)?;
        Ok(())
    }
}

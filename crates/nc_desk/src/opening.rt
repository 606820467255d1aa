//! What comes to a worker directly: messages, subscribers, and questions for information.
ghost use Rattle.std.specs.Prelude.{◌≡◌, ℕ, OnOk, IfOk, [], ◌∷◌, None, Some, false};
ghost use Rattle.nc_journal.specs.declared.event.Event.TheVariants.{Asked, Subscribed};
ghost use Rattle.nc_journal.specs.declared.word.ModeLine.TheVariants.{Direct};
ghost use Rattle.nc_alert.specs.declared.alert.Alert.TheVariants.{Publish};
ghost use Rattle.nc_slots.specs.Slots.{HoldAt};
ghost use Rattle.nc_scribe.specs.Scribe.{KeepsOwn};
ghost use Rattle.nc_desk.specs.Desk.{KeepsHeld};
ghost use Rattle.nc_spool.specs.Arrive.{FitsList};
ghost use Rattle.nc_worker_state.specs.Setup.{setup_of};
ghost use Rattle.nc_worker_state.specs.Incoming.{Posts, Subscribes, Removes, Informs};
ghost use Rattle.nc_desk.specs.Begins.{Begins};

use crate::desk::Desk;
use nc_alert::{Alert, Outgoing};
use nc_journal::{Act, EndedCause, Event, ModeLine};
use nc_scribe::Scribe;
use nc_types::{Bytes, ChanList, ChanName, Config, Cursor, List, NoMemory, Start};
use std::alloc::Global;

/// The list of one name.
fn list_of_one(alloc: Global, name: &ChanName) -> Result<ChanList, NoMemory>
    ensures { IfOk result (λ list. list ≡ name.now ∷ []) }
{
    let mut names = List::new(alloc);
    names.push(name.copied()?)?;
    Ok(ChanList { names })
}

/// The same names once more.
fn copied_names(alloc: Global, names: &[ChanName]) -> Result<List<ChanName>, NoMemory>
    ensures { IfOk result (λ copy. copy ≡ names.now) }
{
    let mut copy = List::new(alloc);
    for name in names {
        copy.push(name.copied()?)?;
    }
    Ok(copy)
}

/// The same list once more.
fn copied_list(alloc: Global, list: &ChanList) -> Result<ChanList, NoMemory>
    ensures { IfOk result (λ copy. copy ≡ list.now) }
{
    let names = copied_names(alloc, list.names.as_slice())?;
    Ok(ChanList { names })
}

/// The same start once more.
fn copied_start(start: &Start) -> Result<Start, NoMemory>
    ensures { IfOk result (λ copy. copy ≡ start.now) }
{
    match start {
        Start::Oldest => Ok(Start::Oldest),
        Start::Newest => Ok(Start::Newest),
        Start::Given(cursor) => Ok(Start::Given(Cursor {
            time: cursor.time,
            tags: cursor.tags.copied()?,
        })),
    }
}

/// The event that something is asked directly about a channel.
fn asked_event(alloc: Global, me: u8, r: u64, act: Act, c: &ChanName) -> Result<Event, NoMemory>
    ensures { IfOk result (λ event. event ≡ Asked me r None act (Some (c.now ∷ [])) 0 0) }
{
    Ok(Event::Asked {
        w: u64::from(me),
        r,
        conn: None,
        act,
        list: Some(list_of_one(alloc, c)?),
        status: 0,
        rule: 0,
    })
}

/// The alert that asks for a message, with the settings of direct requests.
fn publish_alert<H>(conf: &Config, r: u64, c: ChanName, body: Bytes) -> Alert<H>
    ensures { result ≡ Publish r c conf.now.base.length conf.now.base.timeout None body }
{
    Alert::Publish {
        r,
        c,
        len: conf.base.length,
        timeout: conf.base.timeout,
        ct: None,
        body,
    }
}

/// The event that a direct subscriber comes.
fn subscribed_event(
    alloc: Global,
    me: u8,
    conf: &Config,
    k: u64,
    list: &ChanList,
    start: &Start,
) -> Result<Event, NoMemory>
    ensures { IfOk result (λ event. event ≡ Subscribed me k None list.now Direct start.now conf.now.base.sub_timeout false) }
{
    Ok(Event::Subscribed {
        w: u64::from(me),
        k,
        conn: None,
        list: copied_list(alloc, list)?,
        mode: ModeLine::Direct,
        start: copied_start(start)?,
        timeout: conf.base.sub_timeout,
        close: false,
    })
}

impl<H: Drop> Desk<H> {
    /// A message is published directly: the channel's owner is asked for it.
    pub fn post(
        &mut self,
        alloc: Global,
        scribe: &mut Scribe<H>,
        conf: &Config,
        chan: ChanName,
        body: Bytes,
    ) -> Result<(), NoMemory>
        ensures begins { OnOk result ((first : ℕ) → Begins (setup_of conf.now first) (Posts chan body) self.old self.new scribe.old scribe.new) }
        ensures own { OnOk result ((held : H → HoldAt) → KeepsOwn held scribe.old scribe.new) }
        ensures spools { OnOk result (self.new.spools ≡ self.old.spools) }
    {
        let r = self.requests;
        let event = asked_event(alloc, scribe.me(), r, Act::Publish, &chan)?;
        scribe.tell(event)?;
        let to = chan.owner(conf.workers);
        let alert = publish_alert(conf, r, chan, body);
        self.ask(scribe, Outgoing { to, alert })?;
        Ok(())
    }

    /// A channel is to be deleted, which is asked for directly: the channel's owner is asked to delete it.
    pub fn remove(
        &mut self,
        alloc: Global,
        scribe: &mut Scribe<H>,
        conf: &Config,
        chan: ChanName,
    ) -> Result<(), NoMemory>
        ensures begins { OnOk result ((first : ℕ) → Begins (setup_of conf.now first) (Removes chan) self.old self.new scribe.old scribe.new) }
        ensures own { OnOk result ((held : H → HoldAt) → KeepsOwn held scribe.old scribe.new) }
        ensures spools { OnOk result (self.new.spools ≡ self.old.spools) }
    {
        let r = self.requests;
        let event = asked_event(alloc, scribe.me(), r, Act::Delete, &chan)?;
        scribe.tell(event)?;
        let to = chan.owner(conf.workers);
        let alert = Alert::Delete { r, c: chan };
        self.ask(scribe, Outgoing { to, alert })?;
        Ok(())
    }

    /// Information on a channel is asked for directly: the channel's owner is asked for it.
    pub fn inform(
        &mut self,
        alloc: Global,
        scribe: &mut Scribe<H>,
        conf: &Config,
        chan: ChanName,
    ) -> Result<(), NoMemory>
        ensures begins { OnOk result ((first : ℕ) → Begins (setup_of conf.now first) (Informs chan) self.old self.new scribe.old scribe.new) }
        ensures own { OnOk result ((held : H → HoldAt) → KeepsOwn held scribe.old scribe.new) }
        ensures spools { OnOk result (self.new.spools ≡ self.old.spools) }
    {
        let r = self.requests;
        let event = asked_event(alloc, scribe.me(), r, Act::Info, &chan)?;
        scribe.tell(event)?;
        let to = chan.owner(conf.workers);
        let alert = Alert::Info { r, c: chan };
        self.ask(scribe, Outgoing { to, alert })?;
        Ok(())
    }

    /// A direct subscriber comes, who ends with the first message.
    pub fn subscribe(
        &mut self,
        alloc: Global,
        scribe: &mut Scribe<H>,
        conf: &Config,
        k: u64,
        list: ChanList,
        start: Start,
    ) -> Result<(), NoMemory>
        requires { FitsList list start }
        ensures begins { OnOk result ((first : ℕ) → Begins (setup_of conf.now first) (Subscribes k list start) self.old self.new scribe.old scribe.new) }
        ensures own { OnOk result ((held : H → HoldAt) → KeepsOwn held scribe.old scribe.new) }
        ensures held { OnOk result ((held : H → HoldAt) → KeepsHeld held self.old self.new) }
    {
        let event = subscribed_event(alloc, scribe.me(), conf, k, &list, &start)?;
        scribe.tell(event)?;
        let facts = self.spools.arrive(k, list, start, true)?;
        scribe.tell_facts(EndedCause::Answered, facts)?;
        Ok(())
    }
}

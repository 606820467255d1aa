//! The board: what a step works on, with what it has told so far.
ghost use Rattle.std.specs.Prelude.{◌≡◌, ◌<◌, ◌+◌, [], length, fold, OnOk, IfOk};
ghost use Rattle.nc_spool.specs.Board.{told, made, looked, asked_from, fresh_places, fresh_spool, taken_or_new, without_spool, parted, ended, shelved, entered};

use crate::ask::{Ask, Asking};
use crate::fact::Fact;
use nc_spool_state::{Place, Reader, Shelf, Spool, SpoolKey, Starts, Workers};
use nc_types::{ChanName, List, MsgId, NoMemory};
use std::alloc::Global;
use std::mem;

/// The number of workers, the number that the next look or edge draws, the spools,
/// the subscribers that aren't started yet, and what the step has told so far.
#[derive(Drop)]
pub struct Board {
    pub workers: Workers,
    pub next: u64,
    pub shelf: Shelf,
    pub starts: Starts,
    pub facts: List<Fact>,
}

impl Board {
    /// Nothing was told yet.
    pub(crate) fn begin(&mut self, alloc: Global)
        ensures { self.new ≡ record self.old { facts = [] } }
    {
        self.facts = List::new(alloc);
    }

    /// Gives what was told.
    pub(crate) fn finish(&mut self, alloc: Global) -> List<Fact>
        ensures facts { result ≡ self.old.facts }
        ensures board { self.new ≡ record self.old { facts = [] } }
    {
        mem::replace(&mut self.facts, List::new(alloc))
    }

    /// Tells a fact.
    pub(crate) fn tell(&mut self, fact: Fact) -> Result<(), NoMemory>
        ensures { OnOk result (self.new ≡ told fact self.old) }
    {
        self.facts.push(fact)?;
        Ok(())
    }

    /// Asks something of the owner of a channel.
    pub(crate) fn make(&mut self, chan: &ChanName, ask: Ask) -> Result<(), NoMemory>
        ensures { OnOk result (self.new ≡ made chan.now ask self.old) }
    {
        let to = self.workers.owner(chan);
        self.tell(Fact::Out(Asking { to, ask }))?;
        Ok(())
    }

    /// Makes a look, and gives the number that it drew.
    pub(crate) fn look(
        &mut self,
        chan: &ChanName,
        after: MsgId,
        fence: u64,
    ) -> Result<u64, NoMemory>
        ensures number { IfOk result (λ n. n ≡ self.old.next) }
        ensures board { OnOk result (self.new ≡ looked chan.now after fence self.old) }
    {
        let no = self.next;
        let Some(next) = no.checked_add(1) else {
            return Err(NoMemory);
        };
        self.next = next;
        let c = chan.copied()?;
        self.make(
            chan,
            Ask::Look {
                no,
                c,
                after,
                fence,
            },
        )?;
        Ok(no)
    }

    /// Makes a look with the fence 0 for each place of a list.
    fn ask_all(&mut self, key: &SpoolKey) -> Result<Vec<Place>, NoMemory>
        ensures places { IfOk result (λ places. places.items ≡ fresh_places self.old.next key.now.list) }
        ensures count { IfOk result (λ places. length places.items ≡ length key.now.list) }
        ensures board { OnOk result (self.new ≡ asked_from key.now 0 key.now.list self.old) }
    {
        let mut places = Vec::new(self.shelf.alloc());
        for (j, name) in key.list.names.as_slice().iter().enumerate() {
            let no = self.look(name, key.at(j), 0)?;
            let earlier = None;
            places.push(Place::Asked { no, earlier })?;
        }
        Ok(places)
    }

    /// A new spool, where nobody stands yet.
    fn open(&mut self, key: &SpoolKey) -> Result<Spool, NoMemory>
        ensures spool { IfOk result (λ spool. spool ≡ fresh_spool self.old.next key.now) }
        ensures board { OnOk result (self.new ≡ asked_from key.now 0 key.now.list self.old) }
    {
        let places = self.ask_all(key)?;
        let alloc = self.shelf.alloc();
        let key = key.copied(alloc)?;
        Ok(Spool {
            key,
            places,
            readers: Vec::new(alloc),
        })
    }

    /// Takes out the spool of a key, or makes it.
    fn take_or_open(&mut self, key: &SpoolKey) -> Result<Spool, NoMemory>
        ensures spool { IfOk result (λ spool. spool ≡ taken_or_new key.now self.old) }
        ensures board { OnOk result (self.new ≡ without_spool key.now self.old) }
    {
        match self.shelf.take(key) {
            Some(spool) => Ok(spool),
            None => {
                let spool = self.open(key)?;
                Ok(spool)
            }
        }
    }

    /// Puts a spool on the shelf.
    pub(crate) fn shelve(&mut self, spool: Spool) -> Result<(), NoMemory>
        ensures { OnOk result (self.new ≡ shelved spool self.old) }
    {
        self.shelf.put(spool)?;
        Ok(())
    }

    /// A subscriber enters the spool of a key.
    pub(crate) fn enter(&mut self, reader: Reader, key: &SpoolKey) -> Result<(), NoMemory>
        ensures { OnOk result (self.new ≡ entered key.now reader self.old) }
    {
        let mut spool = self.take_or_open(key)?;
        spool.enter(reader)?;
        self.shelve(spool)?;
        Ok(())
    }

    /// A subscriber is a member of a channel no longer.
    fn part(&mut self, k: u64, chan: &ChanName) -> Result<(), NoMemory>
        ensures { OnOk result (self.new ≡ parted k self.old chan.now) }
    {
        let c = chan.copied()?;
        self.make(chan, Ask::Part { c, k })?;
        Ok(())
    }

    /// A subscriber is ended, and parts from some channels.
    pub(crate) fn end(&mut self, k: u64, deleted: bool, names: &[ChanName]) -> Result<(), NoMemory>
        ensures { OnOk result (self.new ≡ ended k deleted names.now self.old) }
    {
        self.tell(Fact::Ended { k, deleted })?;
        for name in names {
            self.part(k, name)?;
        }
        Ok(())
    }
}

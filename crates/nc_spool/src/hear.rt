//! Hearing: the answer to a look comes, a message was stored, a channel is gone.
ghost use Rattle.std.specs.Prelude.{◌≡◌, ◌<◌, length, fold, OnOk, IfOk};
ghost use Rattle.nc_spool.specs.Hear.{heeded, answered, answered_in, noticed, noticed_in, noticed_at, looked_again, emptied, emptied_in, emptied_at};

use crate::board::Board;
use nc_spool_state::{Heard, News, Place, Quiet, Spool, SpoolKey, gone_says, learned, notice_says};
use nc_types::{ChanName, NoMemory};

impl Board {
    /// Looks at a place with the fence 0, and gives the number that the look drew.
    fn look_again(&mut self, key: &SpoolKey, j: usize) -> Result<u64, NoMemory>
        requires { j < length key.now.list }
        ensures number { IfOk result (λ n. n ≡ self.old.next) }
        ensures board { OnOk result (self.new ≡ looked_again key.now j self.old) }
    {
        let name = &key.list.names.as_slice()[j];
        let no = self.look(name, key.at(j), 0)?;
        Ok(no)
    }

    /// A place of a spool that was taken from the shelf makes something of what was heard.
    fn heed(&mut self, mut spool: Spool, j: usize, heard: Heard) -> Result<(), NoMemory>
        requires { j < length spool.key.list }
        ensures { OnOk result (self.new ≡ heeded heard j spool self.old) }
    {
        match heard {
            Heard::Stays => {
                self.shelve(spool)?;
                Ok(())
            }
            Heard::Forgets(place) => {
                spool.set_place(j, place);
                self.shelve(spool)?;
                Ok(())
            }
            Heard::Looks => {
                let no = self.look_again(&spool.key, j)?;
                let earlier = None;
                spool.set_place(j, Place::Asked { no, earlier });
                self.shelve(spool)?;
                Ok(())
            }
            Heard::Finds(place) => {
                spool.set_place(j, place);
                self.decide(spool)?;
                Ok(())
            }
        }
    }

    /// A spool that was taken from the shelf gets the answer to a look.
    fn answer(
        &mut self,
        mut spool: Spool,
        number: u64,
        quiet: Quiet,
        news: Option<News>,
    ) -> Result<(), NoMemory>
        ensures { OnOk result (self.new ≡ answered_in number quiet news spool self.old) }
    {
        match spool.place_awaiting(number) {
            Some(j) => {
                let place = learned(spool.key.at(j), quiet, news);
                spool.set_place(j, place);
                self.decide(spool)?;
                Ok(())
            }
            None => {
                self.shelve(spool)?;
                Ok(())
            }
        }
    }

    /// The answer to a look comes.
    pub(crate) fn answered(
        &mut self,
        number: u64,
        quiet: Quiet,
        news: Option<News>,
    ) -> Result<(), NoMemory>
        ensures { OnOk result (self.new ≡ answered number quiet news self.old) }
    {
        match self.shelf.take_awaiting(number) {
            Some(spool) => {
                self.answer(spool, number, quiet, news)?;
                Ok(())
            }
            None => Ok(()),
        }
    }

    /// A spool that was taken from the shelf hears of a message that was stored.
    fn notice(&mut self, spool: Spool, chan: &ChanName, news: &News) -> Result<(), NoMemory>
        ensures { OnOk result (self.new ≡ noticed_in chan.now news.now spool self.old) }
    {
        match spool.key.place_of(chan) {
            Some(j) => {
                let is_past = news.id.past(&spool.key.at(j));
                let heard = notice_says(news, is_past, spool.place(j));
                self.heed(spool, j, heard)?;
                Ok(())
            }
            None => {
                self.shelve(spool)?;
                Ok(())
            }
        }
    }

    /// The spool of a key, if it still stands, hears of it.
    fn notice_at(&mut self, key: &SpoolKey, chan: &ChanName, news: &News) -> Result<(), NoMemory>
        ensures { OnOk result (self.new ≡ noticed_at chan.now news.now self.old key.now) }
    {
        match self.shelf.take(key) {
            Some(spool) => {
                self.notice(spool, chan, news)?;
                Ok(())
            }
            None => Ok(()),
        }
    }

    /// A message was stored in a channel: each spool that has the channel hears of it.
    pub(crate) fn noticed(&mut self, chan: &ChanName, news: &News) -> Result<(), NoMemory>
        ensures { OnOk result (self.new ≡ noticed chan.now news.now self.old) }
    {
        let keys = self.shelf.keys_with(self.shelf.alloc(), chan)?;
        for key in &keys {
            self.notice_at(key, chan, news)?;
        }
        Ok(())
    }

    /// A spool that was taken from the shelf hears of a channel that is gone.
    fn empty(&mut self, spool: Spool, chan: &ChanName) -> Result<(), NoMemory>
        ensures { OnOk result (self.new ≡ emptied_in chan.now spool self.old) }
    {
        match spool.key.place_of(chan) {
            Some(j) => {
                let heard = gone_says(spool.place(j));
                self.heed(spool, j, heard)?;
                Ok(())
            }
            None => {
                self.shelve(spool)?;
                Ok(())
            }
        }
    }

    /// The spool of a key, if it still stands, hears of it.
    fn empty_at(&mut self, key: &SpoolKey, chan: &ChanName) -> Result<(), NoMemory>
        ensures { OnOk result (self.new ≡ emptied_at chan.now self.old key.now) }
    {
        match self.shelf.take(key) {
            Some(spool) => {
                self.empty(spool, chan)?;
                Ok(())
            }
            None => Ok(()),
        }
    }

    /// A channel is gone: each spool that has it hears of it.
    pub(crate) fn emptied(&mut self, chan: &ChanName) -> Result<(), NoMemory>
        ensures { OnOk result (self.new ≡ emptied chan.now self.old) }
    {
        let keys = self.shelf.keys_with(self.shelf.alloc(), chan)?;
        for key in &keys {
            self.empty_at(key, chan)?;
        }
        Ok(())
    }
}

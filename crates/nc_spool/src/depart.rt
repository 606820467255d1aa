//! Subscribers that go, by themselves or with a channel.
ghost use Rattle.std.specs.Prelude.{◌≡◌, fold, find, OnOk, IfOk};
ghost use Rattle.nc_spool.specs.Depart.{names_with, left, other_names, departed, member_gone, gone};

use crate::board::Board;
use nc_spool_state::copied_names;
use nc_types::{ChanName, List, NoMemory};

/// The names without one of them.
fn other_names(names: Vec<ChanName>, chan: &ChanName) -> Vec<ChanName>
    ensures { result.items ≡ other_names chan.now names.items }
{
    let mut names = names;
    names.retain(|name| *name != *chan);
    names
}

impl Board {
    /// Takes a subscriber out, and gives its channels, if it is there. A spool without subscribers is gone.
    fn leave(&mut self, k: u64) -> Result<Option<List<ChanName>>, NoMemory>
        ensures names { IfOk result (λ names. names ≡ names_with k self.old) }
        ensures board { OnOk result (self.new ≡ left k self.old) }
    {
        match self.shelf.take_with(k) {
            Some(mut spool) => {
                spool.leave(k);
                let names = copied_names(self.shelf.alloc(), &spool.key.list.names)?;
                self.shelf.put_back(spool)?;
                Ok(Some(names))
            }
            None => match self.starts.take(k) {
                Some(starting) => Ok(Some(starting.list.names)),
                None => Ok(None),
            },
        }
    }

    /// A subscriber is ended, if it is there.
    pub(crate) fn depart(&mut self, k: u64) -> Result<(), NoMemory>
        ensures { OnOk result (self.new ≡ departed k self.old) }
    {
        match self.leave(k)? {
            Some(names) => {
                self.end(k, false, names.as_slice())?;
                Ok(())
            }
            None => Ok(()),
        }
    }

    /// A subscriber is ended by the deletion of a channel, if it is there.
    fn end_member(&mut self, chan: &ChanName, k: u64) -> Result<(), NoMemory>
        ensures { OnOk result (self.new ≡ member_gone chan.now self.old k) }
    {
        match self.leave(k)? {
            Some(names) => {
                let others = other_names(names.into_vec(), chan);
                self.end(k, true, &others)?;
                Ok(())
            }
            None => Ok(()),
        }
    }

    /// A channel is gone, and these subscribers were its members.
    pub(crate) fn gone(&mut self, chan: &ChanName, members: &[u64]) -> Result<(), NoMemory>
        ensures { OnOk result (self.new ≡ gone chan.now members.now self.old) }
    {
        self.end_members(chan, members)?;
        self.emptied(chan)?;
        Ok(())
    }

    /// Its members are ended.
    fn end_members(&mut self, chan: &ChanName, members: &[u64]) -> Result<(), NoMemory>
        ensures { OnOk result (self.new ≡ fold (member_gone chan.now) self.old members.now) }
    {
        for k in members {
            self.end_member(chan, *k)?;
        }
        Ok(())
    }
}

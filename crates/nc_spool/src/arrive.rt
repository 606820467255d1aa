//! Subscribers that come.
ghost use Rattle.std.specs.Prelude.{◌≡◌, ◌<◌, fold, OnOk, IfOk};
ghost use Rattle.nc_spool.specs.Arrive.{joined, oldest_cursor, arrived, FitsList};

use crate::ask::Ask;
use crate::board::Board;
use nc_spool_state::{Reader, SpoolKey, Starting};
use nc_types::{ChanList, ChanName, Cursor, List, NoMemory, Start};
use std::alloc::Global;

/// The cursor before every message, with so many tags.
fn oldest_cursor(alloc: Global, n: usize) -> Result<Cursor, NoMemory>
    requires { 0 < n }
    ensures { IfOk result (λ cursor. cursor ≡ oldest_cursor n) }
{
    let tags = vec![in alloc; -1i32; n]?;
    Ok(Cursor {
        time: 0,
        tags: List::of(tags),
    })
}

impl Board {
    /// A subscriber becomes a member of a channel.
    fn join(&mut self, k: u64, chan: &ChanName) -> Result<(), NoMemory>
        ensures { OnOk result (self.new ≡ joined k self.old chan.now) }
    {
        let c = chan.copied()?;
        self.make(chan, Ask::Join { c, k })?;
        Ok(())
    }

    /// A subscriber becomes a member of each channel.
    fn join_all(&mut self, k: u64, names: &[ChanName]) -> Result<(), NoMemory>
        ensures { OnOk result (self.new ≡ fold (joined k) self.old names.now) }
    {
        for name in names {
            self.join(k, name)?;
        }
        Ok(())
    }

    /// A subscriber comes.
    pub(crate) fn arrive(
        &mut self,
        reader: Reader,
        list: ChanList,
        start: Start,
    ) -> Result<(), NoMemory>
        requires { FitsList list start }
        ensures { OnOk result (self.new ≡ arrived reader list start self.old) }
    {
        self.join_all(reader.k, list.names.as_slice())?;
        match start {
            Start::Oldest => {
                let cursor = oldest_cursor(self.shelf.alloc(), list.names.len())?;
                self.start(reader, SpoolKey { list, cursor })?;
                Ok(())
            }
            Start::Newest => {
                let edges = self.edge_all(reader.k, list.names.as_slice())?;
                self.park(Starting {
                    reader,
                    list,
                    edges,
                    cursor: None,
                })?;
                Ok(())
            }
            Start::Given(cursor) => {
                self.start(reader, SpoolKey { list, cursor })?;
                Ok(())
            }
        }
    }
}

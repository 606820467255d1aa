//! Subscribers that begin behind the newest message, until they are started.
ghost use Rattle.std.specs.Prelude.{◌≡◌, ◌<◌, length, OnOk, IfOk, IfSome, Some};
ghost use Rattle.nc_spool.specs.Newest.{asked_edge, edges_from, fresh_edges, behind_edge, behind_edges, edge_behind, edges_behind, begun, parked, parked_behind, second_by, seconded, answered_all, went_on, edge_heard, edge_answered};

use crate::ask::Ask;
use crate::board::Board;
use crate::fact::Fact;
use nc_spool_state::{
    Edge, Reader, SpoolKey, Starting, copied_cursor, is_any_awaited, is_any_behind, newest_cursor,
};
use nc_types::{ChanList, ChanName, Cursor, NoMemory};

impl Board {
    /// Makes an edge, and gives the number that it drew.
    fn edge(&mut self, k: u64, chan: &ChanName, fence: u64) -> Result<u64, NoMemory>
        ensures number { IfOk result (λ n. n ≡ self.old.next) }
        ensures board { OnOk result (self.new ≡ asked_edge k chan.now fence self.old) }
    {
        let no = self.next;
        let Some(next) = no.checked_add(1) else {
            return Err(NoMemory);
        };
        self.next = next;
        let c = chan.copied()?;
        self.make(chan, Ask::Edge { no, k, c, fence })?;
        Ok(no)
    }

    /// Makes an edge with the fence 0 for each channel.
    pub(crate) fn edge_all(&mut self, k: u64, names: &[ChanName]) -> Result<Vec<Edge>, NoMemory>
        ensures edges { IfOk result (λ edges. edges.items ≡ fresh_edges self.old.next names.now) }
        ensures count { IfOk result (λ edges. length edges.items ≡ length names.now) }
        ensures board { OnOk result (self.new ≡ edges_from k names.now self.old) }
    {
        let mut edges = Vec::new(self.shelf.alloc());
        for name in names {
            let no = self.edge(k, name, 0)?;
            edges.push(Edge::Awaited(no))?;
        }
        Ok(edges)
    }

    /// Makes an edge behind a fence for a channel whose owner's floor is below its time.
    fn edge_behind(
        &mut self,
        k: u64,
        name: &ChanName,
        edge: Edge,
        time: u64,
    ) -> Result<Edge, NoMemory>
        ensures edge { IfOk result (λ known. known ≡ behind_edge time self.old.next edge) }
        ensures board { OnOk result (self.new ≡ edge_behind time k name.now edge self.old) }
    {
        if edge.is_behind(time) {
            let no = self.edge(k, name, time)?;
            Ok(Edge::Awaited(no))
        } else {
            Ok(edge)
        }
    }

    /// Does so for each channel.
    fn edges_behind(
        &mut self,
        k: u64,
        list: &ChanList,
        edges: &mut [Edge],
        time: u64,
    ) -> Result<(), NoMemory>
        requires { length edges.old ≡ length list.now }
        ensures edges { OnOk result (edges.new ≡ behind_edges time k list.now 0 edges.old self.old) }
        ensures board { OnOk result (self.new ≡ edges_behind time k list.now 0 edges.old self.old) }
    {
        for (j, edge) in edges.iter_mut().enumerate() {
            let known = self.edge_behind(k, &list.names.as_slice()[j], *edge, time)?;
            *edge = known;
        }
        Ok(())
    }

    /// A subscriber is started, and enters the spool of a key.
    pub(crate) fn start(&mut self, reader: Reader, key: SpoolKey) -> Result<(), NoMemory>
        ensures { OnOk result (self.new ≡ begun reader key self.old) }
    {
        let cursor = copied_cursor(&key.cursor)?;
        self.tell(Fact::Started {
            k: reader.k,
            cursor,
        })?;
        self.enter(reader, &key)?;
        Ok(())
    }

    /// A subscriber goes on waiting for its edges.
    pub(crate) fn park(&mut self, starting: Starting) -> Result<(), NoMemory>
        ensures { OnOk result (self.new ≡ parked starting self.old) }
    {
        self.starts.put(starting)?;
        Ok(())
    }

    /// Makes the edges behind the fence, with the cursor that the first ones gave.
    fn park_behind(
        &mut self,
        reader: Reader,
        list: ChanList,
        edges: Vec<Edge>,
        cursor: Cursor,
    ) -> Result<(), NoMemory>
        requires edges { length edges.items ≡ length list }
        requires cursor { length cursor.tags ≡ length list }
        ensures { OnOk result (self.new ≡ parked_behind reader list edges.items cursor self.old) }
    {
        let mut edges = edges;
        let time = cursor.time;
        self.edges_behind(reader.k, &list, &mut edges, time)?;
        self.park(Starting {
            reader,
            list,
            edges,
            cursor: Some(cursor),
        })?;
        Ok(())
    }

    /// Each first edge was answered: the subscriber is started, unless an owner's floor is below the greatest time.
    fn second(&mut self, reader: Reader, list: ChanList, edges: Vec<Edge>) -> Result<(), NoMemory>
        requires edges { length edges.items ≡ length list }
        requires some { 0 < length list }
        ensures { OnOk result (self.new ≡ seconded reader list edges.items self.old) }
    {
        let cursor = newest_cursor(self.shelf.alloc(), &edges)?;
        if is_any_behind(&edges, cursor.time) {
            self.park_behind(reader, list, edges, cursor)?;
            Ok(())
        } else {
            self.start(reader, SpoolKey { list, cursor })?;
            Ok(())
        }
    }

    /// No edge of a subscriber is in flight any more.
    fn answered_all(
        &mut self,
        reader: Reader,
        list: ChanList,
        edges: Vec<Edge>,
        cursor: Option<Cursor>,
    ) -> Result<(), NoMemory>
        requires edges { length edges.items ≡ length list }
        requires some { 0 < length list }
        requires cursor { IfSome cursor (λ c. length c.tags ≡ length list) }
        ensures { OnOk result (self.new ≡ answered_all cursor reader list edges.items self.old) }
    {
        match cursor {
            Some(cursor) => {
                self.start(reader, SpoolKey { list, cursor })?;
                Ok(())
            }
            None => {
                self.second(reader, list, edges)?;
                Ok(())
            }
        }
    }

    /// A subscriber goes on, once one of its edges was answered.
    fn go_on(&mut self, starting: Starting) -> Result<(), NoMemory>
        ensures { OnOk result (self.new ≡ went_on starting self.old) }
    {
        if is_any_awaited(&starting.edges) {
            self.park(starting)?;
            return Ok(());
        }
        let Starting {
            reader,
            list,
            edges,
            cursor,
        } = starting;
        self.answered_all(reader, list, edges, cursor)?;
        Ok(())
    }

    /// A subscriber gets the answer to an edge.
    fn hear_edge(&mut self, mut starting: Starting, number: u64, edge: Edge) -> Result<(), NoMemory>
        ensures { OnOk result (self.new ≡ edge_heard number edge starting self.old) }
    {
        match starting.place_awaiting(number) {
            Some(j) => {
                starting.set_edge(j, edge);
                self.go_on(starting)?;
                Ok(())
            }
            None => {
                self.park(starting)?;
                Ok(())
            }
        }
    }

    /// The answer to an edge comes.
    pub(crate) fn edged(&mut self, number: u64, edge: Edge) -> Result<(), NoMemory>
        ensures { OnOk result (self.new ≡ edge_answered number edge self.old) }
    {
        match self.starts.take_awaiting(number) {
            Some(starting) => {
                self.hear_edge(starting, number, edge)?;
                Ok(())
            }
            None => Ok(()),
        }
    }
}

//! The calls of spools.
ghost use Rattle.std.specs.Prelude.{◌≡◌, ◌<◌, OnOk, IfOk, IsTrue, Some, find};
ghost use Rattle.std.specs.Option.{option_map};
ghost use Rattle.nc_spool.specs.Arrive.{FitsList};
ghost use Rattle.nc_spool_state.specs.Kept.{with_hold, is_kept, hold_of, is_idle};
ghost use Rattle.nc_spool.specs.Calls.{new_spools, news_of, with_found, arrive_facts, arrive_after, answer_facts, answer_after, edge_facts, edge_after, notice_facts, notice_after, gone_facts, gone_after, depart_facts, depart_after, without_idle};

use crate::board::Board;
use crate::fact::Fact;
use nc_spool_state::{Edge, Held, Kept, News, Quiet, Reader, Shelf, Starts, Workers};
use nc_types::{ChanList, ChanName, List, MsgId, NoMemory, Start};
use std::alloc::Global;
use std::marker::Model;

/// A message that was found, with its hold.
#[derive(Drop)]
pub struct Found<H> {
    pub id: MsgId,
    pub held: Held<H>,
}

/// What a worker keeps of its subscribers: the spools where they stand, those that aren't started yet,
/// and the holds of the messages that are to be sent. After want of memory it is only to be dropped.
#[derive(Drop)]
pub struct Spools<H> {
    alloc: Global,
    board: Board,
    kept: Kept<H>,
}

impl<H> Model for Spools<H> {
    ghost use Rattle.nc_spool.specs.Calls.{SpoolsAt};

    ghost Value = { SpoolsAt H };

    ghost view = { λ s. record { workers = s.board.workers; next = s.board.next; shelf = s.board.shelf; starts = s.board.starts; kept = s.kept } };
}

/// Keeps the hold of a message that was found.
fn keep<H: Drop>(kept: &mut Kept<H>, found: Found<H>) -> Result<News, NoMemory>
    ensures news { IfOk result (λ news. news ≡ news_of found) }
    ensures kept { OnOk result (kept.new ≡ with_hold found.held kept.old) }
{
    let news = News {
        id: found.id,
        owner: found.held.owner,
        g: found.held.g,
    };
    kept.keep(found.held)?;
    Ok(news)
}

/// Keeps the hold of a message, if one was found.
fn keep_found<H: Drop>(
    kept: &mut Kept<H>,
    found: Option<Found<H>>,
) -> Result<Option<News>, NoMemory>
    ensures news { IfOk result (λ news. news ≡ option_map news_of found) }
    ensures kept { OnOk result (kept.new ≡ with_found found kept.old) }
{
    match found {
        Some(found) => {
            let news = keep(kept, found)?;
            Ok(Some(news))
        }
        None => Ok(None),
    }
}

impl<H: Drop> Spools<H> {
    /// No subscribers, at one of `workers` workers. The numbers of looks and edges begin with `first`.
    pub fn new(alloc: Global, workers: u8, first: u64) -> Spools<H>
        requires { 0 < workers }
        ensures { result ≡ new_spools workers first }
    {
        Spools {
            alloc,
            board: Board {
                workers: Workers::of(workers),
                next: first,
                shelf: Shelf::new(alloc),
                starts: Starts::new(alloc),
                facts: List::new(alloc),
            },
            kept: Kept::new(alloc),
        }
    }

    /// The number that the next look or edge draws.
    pub fn next(&self) -> u64
        ensures { result ≡ self.now.next }
    {
        self.board.next
    }

    /// Subscriber `k` comes, who ends with the first message if `once` is true.
    pub fn arrive(
        &mut self,
        k: u64,
        list: ChanList,
        start: Start,
        once: bool,
    ) -> Result<List<Fact>, NoMemory>
        requires { FitsList list start }
        ensures facts { IfOk result (λ facts. facts ≡ arrive_facts k list start once self.old) }
        ensures after { OnOk result (self.new ≡ arrive_after k list start once self.old) }
    {
        self.board.begin(self.alloc);
        self.board.arrive(Reader { k, once }, list, start)?;
        Ok(self.board.finish(self.alloc))
    }

    /// The answer to the look `no` comes, with the owner's number `q` of it.
    pub fn answered(
        &mut self,
        no: u64,
        q: u64,
        floor: u64,
        found: Option<Found<H>>,
    ) -> Result<List<Fact>, NoMemory>
        ensures facts { IfOk result (λ facts. facts ≡ answer_facts no q floor found self.old) }
        ensures after { OnOk result (self.new ≡ answer_after no q floor found self.old) }
    {
        self.board.begin(self.alloc);
        let news = keep_found(&mut self.kept, found)?;
        self.board.answered(no, Quiet { q, floor }, news)?;
        Ok(self.board.finish(self.alloc))
    }

    /// The answer to the edge `no` comes. The owner's number `q` of it is of no use to spools.
    pub fn edged(
        &mut self,
        no: u64,
        _q: u64,
        floor: u64,
        last: MsgId,
    ) -> Result<List<Fact>, NoMemory>
        ensures facts { IfOk result (λ facts. facts ≡ edge_facts no floor last self.old) }
        ensures after { OnOk result (self.new ≡ edge_after no floor last self.old) }
    {
        self.board.begin(self.alloc);
        self.board.edged(no, Edge::Known { last, floor })?;
        Ok(self.board.finish(self.alloc))
    }

    /// A message was stored in a channel where the worker had looked in vain.
    pub fn noticed(&mut self, chan: &ChanName, found: Found<H>) -> Result<List<Fact>, NoMemory>
        ensures facts { IfOk result (λ facts. facts ≡ notice_facts chan.now found self.old) }
        ensures after { OnOk result (self.new ≡ notice_after chan.now found self.old) }
    {
        self.board.begin(self.alloc);
        let news = keep(&mut self.kept, found)?;
        self.board.noticed(chan, &news)?;
        Ok(self.board.finish(self.alloc))
    }

    /// A channel was removed, and these subscribers were its members.
    pub fn gone(&mut self, chan: &ChanName, subs: &List<u64>) -> Result<List<Fact>, NoMemory>
        ensures facts { IfOk result (λ facts. facts ≡ gone_facts chan.now subs.now self.old) }
        ensures after { OnOk result (self.new ≡ gone_after chan.now subs.now self.old) }
    {
        self.board.begin(self.alloc);
        self.board.gone(chan, subs.as_slice())?;
        Ok(self.board.finish(self.alloc))
    }

    /// Subscriber `k` is ended.
    pub fn depart(&mut self, k: u64) -> Result<List<Fact>, NoMemory>
        ensures facts { IfOk result (λ facts. facts ≡ depart_facts k self.old) }
        ensures after { OnOk result (self.new ≡ depart_after k self.old) }
    {
        self.board.begin(self.alloc);
        self.board.depart(k)?;
        Ok(self.board.finish(self.alloc))
    }

    /// Whether the hold of a grant is kept.
    pub fn keeps(&self, owner: u8, g: u64) -> bool
        ensures { result ≡ is_kept owner g self.now.kept }
    {
        self.kept.keeps(owner, g)
    }

    /// The hold of a grant, which is kept.
    pub fn holding(&self, owner: u8, g: u64) -> &H
        requires { IsTrue (is_kept owner g self.now.kept) }
        ensures { hold_of owner g self.now.kept ≡ Some result.now }
    {
        self.kept.holding(owner, g)
    }

    /// Takes out the least hold without a use, by owner and grant. None comes exactly where each hold has a use.
    pub fn idle_hold(&mut self) -> Option<Held<H>>
        ensures taken { result ≡ find (is_idle self.old.shelf) self.old.kept }
        ensures after { self.new ≡ without_idle self.old }
    {
        self.kept.take_idle(&self.board.shelf)
    }
}

//! A connection's bytes, read item by item under any cut.
ghost use Rattle.std.specs.Prelude.{◌≡◌, [], length, IfOk, OnOk, OnErr};
ghost use Rattle.nc_http_in.specs.Held.{fresh, fed, emptied, GoesOn, Answers};
ghost use Rattle.nc_http_in.specs.Answered.{HasOneLines};
ghost use Rattle.nc_http_in.specs.Answering.{stage_of, next_of, left_of, is_short};

use crate::next::Next;
use crate::pending::Pending;
use crate::read::{read_on, still_waits};
use crate::stage::{Found, Stage};
use nc_types::{Bytes, NoMemory};
use std::alloc::Global;
use std::marker::Model;
use std::mem;

/// The bytes of a connection that were fed and not yet answered.
///
/// Contracts see the part of a request that is next and the bytes from there on; the definition `HasRead` says which bytes,
/// of all that were fed, it stands for. An idle reader keeps no memory. In the middle of a request it keeps the head or what
/// was read of it, the body so far and the part that is next: of a body in chunks no chunk line is kept.
#[derive(Drop)]
pub struct Reader {
    pending: Pending,
    stage: Stage,
}

/// The stage that is next, and what is answered.
#[derive(Drop)]
struct Answer {
    stage: Stage,
    next: Next,
}

/// Drops the bytes behind a refusal, and gives back the room that a request which has begun doesn't need.
fn tidy(pending: &mut Pending, found: &Found)
    ensures { pending.new ≡ left_of found.now pending.old }
{
    match found {
        Found::On(_) => {}
        Found::Waits(_) => pending.settle(),
        Found::Whole(_) => {}
        Found::Refused(_) => pending.clear(),
        Found::Short(_) => {}
    }
}

fn is_short(found: &Found) -> bool
    ensures { result ≡ is_short found.now }
{
    match found {
        Found::On(_) => false,
        Found::Waits(_) => false,
        Found::Whole(_) => false,
        Found::Refused(_) => false,
        Found::Short(_) => true,
    }
}

fn answer_of(found: Found) -> Answer
    ensures stage { result.stage ≡ stage_of found }
    ensures next { result.next ≡ next_of found }
{
    match found {
        Found::On(stage) => Answer {
            stage,
            next: Next::More,
        },
        Found::Waits(stage) => Answer {
            stage,
            next: Next::More,
        },
        Found::Whole(request) => Answer {
            stage: Stage::Start,
            next: Next::Request(request),
        },
        Found::Refused(status) => Answer {
            stage: Stage::Bad { status },
            next: Next::Bad { status },
        },
        Found::Short(stage) => Answer {
            stage,
            next: Next::More,
        },
    }
}

impl Model for Reader {
    ghost use Rattle.nc_http_in.specs.Held.{Held};
    ghost use Rattle.nc_http_in.specs.Reading.{part_of, IsNoted};

    ghost Value = { Held };

    ghost view = { λ r. record { part = part_of r.stage; behind = r.pending } };

    ghost invariant = { λ r. IsNoted r.stage r.pending };
}

impl Reader {
    /// A reader of a new connection, which takes no memory yet.
    pub fn new(alloc: Global) -> Reader
        ensures { result ≡ fresh [] }
    {
        Reader {
            pending: Pending::new(alloc),
            stage: Stage::Start,
        }
    }

    /// Puts a piece behind the bytes that were fed. Without memory they stay as they were; behind a refusal nothing is kept.
    pub fn feed(&mut self, piece: &[u8]) -> Result<(), NoMemory>
        ensures ok { OnOk result (self.new ≡ fed self.old piece.now) }
        ensures err { OnErr result (self.new ≡ self.old) }
    {
        if self.stage.is_over() {
            return Ok(());
        }
        self.pending.put(piece)
    }

    /// What the bytes not yet answered hold first, which is answered by this: a whole request, or nothing yet, or a refusal,
    /// which is answered from then on. A request's values have no CR and no LF.
    ///
    /// Without memory the reader goes on from where it was, and the same can be asked again.
    #[tactic(none)]
    pub fn next(&mut self) -> Result<Next, NoMemory>
        ensures answer { IfOk result (λ next. Answers self.old self.new next) }
        ensures lines { IfOk result HasOneLines }
        ensures err { OnErr result (GoesOn self.old self.new) }
    {
        if still_waits(&mut self.stage, self.pending.as_slice()) {
            self.pending.settle();
            return Ok(Next::More);
        }
        let stage = mem::replace(&mut self.stage, Stage::Start);
        let turn = read_on(self.pending.allocator(), self.pending.as_slice(), stage);
        self.pending.take_off(turn.taken);
        tidy(&mut self.pending, &turn.found);
        let short = is_short(&turn.found);
        let Answer { stage, next } = answer_of(turn.found);
        self.stage = stage;
        if short {
            return Err(NoMemory);
        }
        Ok(next)
    }

    /// How many bytes there are from the part on that is next: behind an answered request all that were fed and not yet
    /// answered.
    pub fn kept(&self) -> usize
        ensures { result ≡ length self.now.behind }
    {
        self.pending.as_slice().len()
    }

    /// Hands out the bytes from the part on that is next, which takes no memory, and forgets a request that has begun.
    /// Behind an answered request these are all bytes that were fed and not yet answered.
    pub fn rest(&mut self) -> Bytes
        ensures bytes { result ≡ self.old.behind }
        ensures after { self.new ≡ emptied self.old }
    {
        if !self.stage.is_over() {
            self.stage = Stage::Start;
        }
        self.pending.take()
    }
}

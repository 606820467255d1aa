//! The steps of a run: the calls of an owner and of its slots.
ghost use Rattle.std.specs.Prelude.{◌≡◌, IfOk, Some};
ghost use Rattle.nc_types.specs.Message.{IsContentType};

use crate::book::Book;
use crate::packet_steps::packet;
use crate::row_steps::row_step;
use crate::slot_steps::slot_step;
use crate::words::{Words, bytes, numbered_bytes};
use nc_owner::{Order, Owner};
use nc_reaper::reap;
use nc_slots::{PlainSlots, SlotRow, Slots};
use nc_types::{Bytes, List, NoMemory};
use std::alloc::Global;

/// A run of owner 0 of two workers over its slots, and a row of slots by itself.
#[derive(Drop)]
pub struct Run {
    pub book: Book,
    pub owner: Owner,
    pub pool: PlainSlots,
    pub row: SlotRow<u8>,
}

impl Run {
    /// A run of an owner of one slot.
    pub fn new(alloc: Global) -> Result<Run, NoMemory> {
        Ok(Run {
            book: Book::new(alloc),
            owner: Owner::new(alloc, 0, 2, 1, 0),
            pool: PlainSlots::new(alloc, 2, 1)?,
            row: SlotRow::new(alloc, 1)?,
        })
    }

    /// `owner SLOTS`: a new run, of an owner of 1 to 4,096 slots.
    fn begin(&mut self, mut words: Words<'_>) -> Result<(), NoMemory> {
        let alloc = self.book.alloc;
        let slots = words.number(4096).max(1) as u32;
        self.owner = Owner::new(alloc, 0, 2, slots, 0);
        self.pool = PlainSlots::new(alloc, 2, slots)?;
        self.book.begin();
        Ok(())
    }

    /// `publish FROM CHANNEL LENGTH TIMEOUT BODY`
    fn publish(&mut self, mut words: Words<'_>) -> Result<(), NoMemory> {
        let from = words.worker();
        let order = Order {
            r: self.book.next_asked(),
            chan: words.name(self.book.alloc)?,
            length: words.slot(),
            timeout: words.number(1_000_000_000),
            content_type: None,
            body: bytes(self.book.alloc, words.next())?,
        };
        let done = self.owner.publish(&mut self.pool, from, order)?;
        self.book.print_done(done)
    }

    /// `typed FROM CHANNEL LENGTH TIMEOUT BYTES`: a message of the type text/plain.
    fn publish_typed(&mut self, mut words: Words<'_>) -> Result<(), NoMemory> {
        let from = words.worker();
        let order = Order {
            r: self.book.next_asked(),
            chan: words.name(self.book.alloc)?,
            length: words.slot(),
            timeout: words.number(1_000_000_000),
            content_type: Some(plain_text(self.book.alloc)?),
            body: numbered_bytes(self.book.alloc, words.next())?,
        };
        let done = self.owner.publish(&mut self.pool, from, order)?;
        self.book.print_done(done)
    }

    /// `look FROM CHANNEL AFTER FENCE`, where a fence of 0 may be left out.
    fn look(&mut self, mut words: Words<'_>) -> Result<(), NoMemory> {
        let from = words.worker();
        let chan = words.name(self.book.alloc)?;
        let after = words.id();
        let fence = words.fence();
        let number = self.book.next_look();
        let done = self
            .owner
            .look(&mut self.pool, from, number, chan, after, fence)?;
        self.book.print_done(done)
    }

    /// `edge FROM CHANNEL SUBSCRIBER FENCE`, where a fence of 0 may be left out.
    fn edge(&mut self, mut words: Words<'_>) -> Result<(), NoMemory> {
        let from = words.worker();
        let chan = words.name(self.book.alloc)?;
        let k = words.long();
        let fence = words.fence();
        let number = self.book.next_look();
        let done = self
            .owner
            .edge(&mut self.pool, from, number, k, chan, fence)?;
        self.book.print_done(done)
    }

    /// `join FROM CHANNEL SUBSCRIBER`
    fn join(&mut self, mut words: Words<'_>) -> Result<(), NoMemory> {
        let from = words.worker();
        let chan = words.name(self.book.alloc)?;
        let done = self.owner.join(&mut self.pool, from, chan, words.long())?;
        self.book.print_done(done)
    }

    /// `part FROM CHANNEL SUBSCRIBER`
    fn part(&mut self, mut words: Words<'_>) -> Result<(), NoMemory> {
        let from = words.worker();
        let chan = words.name(self.book.alloc)?;
        let done = self.owner.part(&mut self.pool, from, chan, words.long())?;
        self.book.print_done(done)
    }

    /// `info FROM CHANNEL`
    fn info(&mut self, mut words: Words<'_>) -> Result<(), NoMemory> {
        let from = words.worker();
        let r = self.book.next_asked();
        let chan = words.name(self.book.alloc)?;
        let done = self.owner.info(&mut self.pool, from, r, chan)?;
        self.book.print_done(done)
    }

    /// `delete FROM CHANNEL`
    fn delete(&mut self, mut words: Words<'_>) -> Result<(), NoMemory> {
        let from = words.worker();
        let r = self.book.next_asked();
        let chan = words.name(self.book.alloc)?;
        let done = self.owner.delete(&mut self.pool, from, r, chan)?;
        self.book.print_done(done)
    }

    /// `sweep CHANNEL`
    fn sweep(&mut self, mut words: Words<'_>) -> Result<(), NoMemory> {
        let chan = words.name(self.book.alloc)?;
        let done = self.owner.sweep_one(&mut self.pool, &chan)?;
        self.book.print_done(done)
    }

    /// `reap`: each channel is swept, and then all retired slots are polled.
    fn reap(&mut self) -> Result<(), NoMemory> {
        for done in reap(self.book.alloc, &mut self.owner, &mut self.pool)?.into_vec() {
            self.book.print_done(done)?;
        }
        Ok(())
    }

    /// `poll`: all retired slots are polled.
    fn poll(&mut self) -> Result<(), NoMemory> {
        for event in self.owner.poll_retired(&mut self.pool)?.events.into_vec() {
            self.book.print_event(event)?;
        }
        Ok(())
    }

    /// `names`: the channels, each on a line of its own.
    fn names(&mut self) -> Result<(), NoMemory> {
        let names = self.owner.names()?;
        for name in names.as_slice() {
            self.book.print(name.bytes.as_slice())?;
        }
        Ok(())
    }

    /// `hold NUMBER`: the body of a message that was granted.
    fn hold(&mut self, mut words: Words<'_>) -> Result<(), NoMemory> {
        let number = words.long();
        let mut body = Vec::new(self.book.alloc);
        for (g, hold) in &self.book.holds {
            if *g == number {
                body.extend_from_slice(self.pool.message(hold).body.as_slice())?;
            }
        }
        self.book.print(&body)
    }

    /// `release NUMBER`: a hold is given back.
    fn release(&mut self, mut words: Words<'_>) -> Result<(), NoMemory> {
        let number = words.long();
        match self.book.holds.iter().position(|hold| hold.0 == number) {
            Some(place) => {
                let (_, hold) = self.book.holds.remove(place);
                self.pool.release(hold);
                Ok(())
            }
            None => self.book.print(b"no such hold"),
        }
    }

    /// `silent COUNT PUBLISH`: so many equal publishes, of which nothing is printed.
    fn publish_silently(&mut self, mut words: Words<'_>) -> Result<(), NoMemory> {
        self.book.is_silent = true;
        for _ in 0..words.number(100_000) {
            self.publish(words)?;
        }
        self.book.is_silent = false;
        Ok(())
    }

    /// A step that asks the owner, or a step of another kind.
    fn ask(&mut self, word: &str, words: Words<'_>) -> Result<(), NoMemory> {
        match word {
            "look" => self.look(words),
            "edge" => self.edge(words),
            "join" => self.join(words),
            "part" => self.part(words),
            "info" => self.info(words),
            "delete" => self.delete(words),
            "sweep" => self.sweep(words),
            "poll" => self.poll(),
            "names" => self.names(),
            "reap" => self.reap(),
            _ => self.book.print(b"no such step"),
        }
    }

    /// A step, named by its first word.
    pub fn step(&mut self, line: &str) -> Result<(), NoMemory> {
        let mut words = Words { rest: line };
        match words.next() {
            "owner" => self.begin(words),
            "clock" => {
                self.owner.set_clock(words.number(4_102_444_800));
                Ok(())
            }
            "publish" => self.publish(words),
            "typed" => self.publish_typed(words),
            "silent" => self.publish_silently(words),
            "asked" => {
                self.book.asked = words.long();
                Ok(())
            }
            "hold" => self.hold(words),
            "release" => self.release(words),
            "slot" => slot_step(&mut self.book, &mut self.pool, words),
            "row" => row_step(&mut self.book, &mut self.row, words),
            "packet" => packet(&mut self.book, words),
            word => self.ask(word, words),
        }
    }
}

/// Some bytes as a list of its own.
fn copied(alloc: Global, bytes: &[u8]) -> Result<Bytes, NoMemory>
    ensures { IfOk result (λ copy. copy ≡ bytes.now) }
{
    Ok(List::of(Vec::from_slice(alloc, bytes)?))
}

/// The type of a plain text.
fn plain_text(alloc: Global) -> Result<Bytes, NoMemory>
    ensures { IfOk result (λ text. IsContentType (Some text)) }
{
    let text = copied(alloc, b"text/plain")?;
    Ok(text)
}

//! One row: new spools, and the calls that are made of them.
ghost use Rattle.std.specs.Prelude.{◌≡◌, length, IfSome};
ghost use Rattle.nc_spool.specs.Arrive.{FitsList};

use crate::facts::{put_fact, put_grant};
use crate::subs;
use nc_ident::read_id;
use nc_multi::list_of;
use nc_spool::{Fact, Found, Spools};
use nc_spool_state::Held;
use nc_subs::Subs;
use nc_types::text::put_decimal;
use nc_types::{Bytes, ChanList, ChanName, Cursor, List, MsgId, NoMemory, Start};
use std::alloc::Global;

/// The spools and the subscribers, and where a row's values take their memory from.
#[derive(Drop)]
pub(crate) struct Row {
    alloc: Global,
    spools: Spools<u64>,
    subs: Subs,
}

fn bytes_of(alloc: Global, text: &str) -> Result<Bytes, NoMemory> {
    Ok(List::of(Vec::from_slice(alloc, text.as_bytes())?))
}

fn name_of(alloc: Global, text: &str) -> Result<ChanName, NoMemory> {
    let bytes = bytes_of(alloc, text)?;
    Ok(ChanName { bytes })
}

/// A list of channels; none where the names make no list.
pub(crate) fn names_of(alloc: Global, text: &str) -> Result<Option<ChanList>, NoMemory> {
    let mut names = Vec::new(alloc);
    for name in text.split(',') {
        names.push(bytes_of(alloc, name)?)?;
    }
    match list_of(alloc, &names, 1024, 7) {
        Ok(list) => Ok(Some(list)),
        Err(_) => Ok(None),
    }
}

/// A number; none where the word is no number.
pub(crate) fn number(word: &str) -> Option<u64> {
    word.parse::<u64>().ok()
}

fn cursor_of(alloc: Global, text: &str, n: usize) -> Option<Cursor>
    ensures { IfSome result (λ cursor. length cursor.tags ≡ n) }
{
    match read_id(alloc, text.as_bytes(), n) {
        Ok(cursor) => Some(cursor),
        Err(_) => None,
    }
}

fn id_of(alloc: Global, text: &str) -> Option<MsgId> {
    let cursor = cursor_of(alloc, text, 1)?;
    Some(cursor.at(0))
}

/// A start; none where the text is none for the list.
fn start_of(alloc: Global, text: &str, list: &ChanList) -> Option<Start>
    ensures { IfSome result (λ start. FitsList list.now start) }
{
    match text {
        "oldest" => Some(Start::Oldest),
        "newest" => Some(Start::Newest),
        _ => {
            let cursor = cursor_of(alloc, text, list.names.len())?;
            Some(Start::Given(cursor))
        }
    }
}

/// The owner and the number of a grant.
fn grant_of(text: &str) -> Option<(u8, u64)> {
    let (owner, g) = text.split_once('.')?;
    Some((owner.parse::<u8>().ok()?, number(g)?))
}

/// A message that was found, with its hold, which bears the grant's number.
fn found_of(alloc: Global, id: &str, grant: &str) -> Option<Found<u64>> {
    let id = id_of(alloc, id)?;
    let (owner, g) = grant_of(grant)?;
    let slot = 0;
    let hold = g;
    Some(Found {
        id,
        held: Held {
            owner,
            g,
            slot,
            hold,
        },
    })
}

fn words_of<'t>(alloc: Global, call: &'t str) -> Result<Vec<&'t str>, NoMemory> {
    let mut words = Vec::new(alloc);
    for word in call.split(' ') {
        words.push(word)?;
    }
    Ok(words)
}

/// The word at a place of a call; none is an empty one.
pub(crate) fn word<'t>(words: &[&'t str], place: usize) -> &'t str {
    match words.get(place) {
        Some(word) => word,
        None => "",
    }
}

/// The numbers of subscribers; a word that is no number is none of them.
fn subs_of(alloc: Global, text: &str) -> Result<List<u64>, NoMemory> {
    let mut subs = List::new(alloc);
    for part in text.split(',') {
        if let Some(k) = number(part) {
            subs.push(k)?;
        }
    }
    Ok(subs)
}

fn put_facts(out: &mut Vec<u8>, facts: &List<Fact>) -> Result<(), NoMemory> {
    for (place, fact) in facts.as_slice().iter().enumerate() {
        out.extend_from_slice(if place == 0 { b" " } else { b"; " })?;
        put_fact(out, fact)?;
    }
    Ok(())
}

pub(crate) fn put_no_call(out: &mut Vec<u8>) -> Result<(), NoMemory> {
    out.extend_from_slice(b" no call")?;
    Ok(())
}

/// The facts of a call, or that the words make none.
fn put_told(out: &mut Vec<u8>, facts: Option<List<Fact>>) -> Result<(), NoMemory> {
    match facts {
        Some(facts) => put_facts(out, &facts),
        None => put_no_call(out),
    }
}

impl Row {
    fn come(&mut self, words: &[&str]) -> Result<Option<List<Fact>>, NoMemory> {
        let Some(k) = number(word(words, 1)) else {
            return Ok(None);
        };
        let Some(list) = names_of(self.alloc, word(words, 2))? else {
            return Ok(None);
        };
        let Some(start) = start_of(self.alloc, word(words, 3), &list) else {
            return Ok(None);
        };
        let facts = self
            .spools
            .arrive(k, list, start, word(words, 4) == "once")?;
        Ok(Some(facts))
    }

    fn answer(&mut self, words: &[&str]) -> Result<Option<List<Fact>>, NoMemory> {
        let found = found_of(self.alloc, word(words, 4), word(words, 5));
        let (Some(no), Some(q)) = (number(word(words, 1)), number(word(words, 2))) else {
            return Ok(None);
        };
        let Some(floor) = number(word(words, 3)) else {
            return Ok(None);
        };
        let facts = self.spools.answered(no, q, floor, found)?;
        Ok(Some(facts))
    }

    fn edge(&mut self, words: &[&str]) -> Result<Option<List<Fact>>, NoMemory> {
        let (Some(no), Some(q)) = (number(word(words, 1)), number(word(words, 2))) else {
            return Ok(None);
        };
        let (Some(floor), Some(last)) = (number(word(words, 3)), id_of(self.alloc, word(words, 4)))
        else {
            return Ok(None);
        };
        let facts = self.spools.edged(no, q, floor, last)?;
        Ok(Some(facts))
    }

    fn notice(&mut self, words: &[&str]) -> Result<Option<List<Fact>>, NoMemory> {
        let chan = name_of(self.alloc, word(words, 1))?;
        let Some(found) = found_of(self.alloc, word(words, 2), word(words, 3)) else {
            return Ok(None);
        };
        let facts = self.spools.noticed(&chan, found)?;
        Ok(Some(facts))
    }

    fn gone(&mut self, words: &[&str]) -> Result<Option<List<Fact>>, NoMemory> {
        let chan = name_of(self.alloc, word(words, 1))?;
        let subs = subs_of(self.alloc, word(words, 2))?;
        let facts = self.spools.gone(&chan, &subs)?;
        Ok(Some(facts))
    }

    fn go(&mut self, words: &[&str]) -> Result<Option<List<Fact>>, NoMemory> {
        let Some(k) = number(word(words, 1)) else {
            return Ok(None);
        };
        let facts = self.spools.depart(k)?;
        Ok(Some(facts))
    }

    fn put_idle(&mut self, out: &mut Vec<u8>) -> Result<(), NoMemory> {
        match self.spools.idle_hold() {
            Some(held) => put_grant(out, b" released ", held.owner, held.g),
            None => Ok(out.extend_from_slice(b" none")?),
        }
    }

    fn put_hold(&self, out: &mut Vec<u8>, words: &[&str]) -> Result<(), NoMemory> {
        match grant_of(word(words, 1)) {
            Some((owner, g)) => {
                if self.spools.keeps(owner, g) {
                    out.extend_from_slice(b" kept ")?;
                    put_decimal(out, *self.spools.holding(owner, g))
                } else {
                    Ok(out.extend_from_slice(b" not kept")?)
                }
            }
            None => put_no_call(out),
        }
    }

    /// Makes one call, and prints what it leads to.
    fn call(&mut self, out: &mut Vec<u8>, words: &[&str]) -> Result<(), NoMemory> {
        match word(words, 0) {
            "idle" => self.put_idle(out),
            "hold" => self.put_hold(out, words),
            "add" => subs::add(self.alloc, out, &mut self.subs, words),
            "get" => subs::ask(out, &mut self.subs, "get", words),
            "remove" => subs::ask(out, &mut self.subs, "remove", words),
            "due" => subs::ask(out, &mut self.subs, "due", words),
            other => {
                let told = self.told(other, words)?;
                put_told(out, told)
            }
        }
    }

    /// Makes a call that tells facts.
    fn told(&mut self, name: &str, words: &[&str]) -> Result<Option<List<Fact>>, NoMemory> {
        match name {
            "come" => self.come(words),
            "answer" => self.answer(words),
            "edge" => self.edge(words),
            "notice" => self.notice(words),
            "gone" => self.gone(words),
            "go" => self.go(words),
            _ => Ok(None),
        }
    }

    /// Makes the calls of a row, and prints a line for each.
    pub(crate) fn run(alloc: Global, out: &mut Vec<u8>, calls: &str) -> Result<(), NoMemory> {
        let spools = Spools::new(alloc, 2, 0);
        let subs = Subs::new(alloc);
        let mut row = Row {
            alloc,
            spools,
            subs,
        };
        for call in calls.split(" | ") {
            let words = words_of(alloc, call)?;
            out.push(b'=')?;
            row.call(out, &words)?;
            out.push(b'\n')?;
        }
        Ok(())
    }
}

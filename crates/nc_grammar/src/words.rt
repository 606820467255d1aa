//! Reads one of some words.
//!
//! `reader` stands below. One word may begin another: reading goes on as long as any word does, and the word ends there.
ghost use Rattle.std.specs.Prelude.{◌≡◌, ◌<◌, ◌≤◌, length, map, IfOk, IfErr};
ghost use Rattle.nc_grammar.specs.declared.fault.Fault.TheVariants.{Stuck};
ghost use Rattle.nc_grammar.specs.Gives.{Gives, GivesBy};
ghost use Rattle.nc_grammar.specs.Label.{word_at, place_from, shared, reach};

use crate::fault::Fault;
use crate::reader::Reader;

/// How many first bytes a word and a text share.
fn shared(word: &[u8], text: &[u8]) -> usize
    ensures count { result ≡ shared word.now text.now }
    ensures within { result ≤ length text.now }
{
    let mut text = text;
    for (count, byte) in word.iter().enumerate() {
        match text {
            [first, rest @ ..] if *first == *byte => text = rest,
            _ => return count,
        }
    }
    word.len()
}

/// The most first bytes that any of the words shares with a text.
fn reach(words: &[&[u8]], text: &[u8]) -> usize
    ensures most { result ≡ reach (map (λ w. w.now) words.now) text.now }
    ensures within { result ≤ length text.now }
{
    let mut most = 0;
    for word in words {
        most = most.max(shared(word, text));
    }
    most
}

impl<'t> Reader<'t> {
    /// Reads one of some words, and tells its place among them.
    ///
    /// `Stuck` behind the longest text in front that begins a word, where that is no word itself.
    pub fn one_of(&mut self, words: &[&[u8]]) -> Result<usize, Fault>
        ensures within { IfOk result (λ place. place < length words.now) }
        ensures read { Gives self.new result (word_at (map (λ w. w.now) words.now) self.old) }
        ensures fault { IfErr result (λ fault. fault ≡ Stuck) }
    {
        let text = self.rest;
        let reach = reach(words, text);
        self.rest = &text[reach..];
        for (place, word) in words.iter().enumerate() {
            if word.len() == reach && shared(word, text) == reach {
                return Ok(place);
            }
        }
        Err(Fault::Stuck)
    }
}

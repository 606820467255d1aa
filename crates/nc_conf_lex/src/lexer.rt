//! The lexer: it goes over a text, token by token.
ghost use Rattle.std.specs.Prelude.{◌≡◌, ℕ, ◌≤◌, ◌<◌, ◌+◌, ◌^◌, false, length, drop, IfOk, IfSome};
ghost use Rattle.std.specs.List.{prefix_len};
ghost use Rattle.nc_conf_lex.specs.Byte.{goes_on};
ghost use Rattle.nc_conf_lex.specs.Reading.{LexerAt, Next, Comes, Answers, IsTold};
ghost use Rattle.nc_conf_lex.specs.Scan.{next_at, quoted_at, plain_at, unescape, Gives};

use crate::scan;
use crate::token::{LexFault, Token};
use crate::word::WordText;
use std::alloc::{AllocError, Global};
use std::marker::Model;

/// A plain word that begins a text at a place, and the place behind it.
fn plain(alloc: Global, at: usize, text: &[u8]) -> Result<(Token<'_>, usize), LexFault>
    requires { at + length text.now < 2 ^ 63 }
    ensures gives { Gives result (plain_at at text.now) }
    ensures within { IfOk result (λ word. word.1 ≤ at + length text.now) }
    ensures moved { 0 < prefix_len goes_on text.now → IfOk result (λ word. at < word.1) }
{
    let len = scan::word_len(text);
    let word = &text[..len];
    if let Some(i) = scan::refused(word) {
        return Err(LexFault::Bad { at: at + i });
    }
    let text = WordText::standing(alloc, word)?;
    Ok((Token::Word { at, text }, at + len))
}

/// What the inside of a quoted word stands for. It is written anew only where there is a backslash.
fn unescaped(alloc: Global, sign: u8, inside: &[u8]) -> Result<WordText<'_>, AllocError>
    ensures { IfOk result (λ text. text ≡ unescape sign false inside.now) }
{
    if scan::has_backslash(inside) {
        WordText::written(alloc, scan::unescape(alloc, sign, inside)?)
    } else {
        WordText::standing(alloc, inside)
    }
}

/// A quoted word whose opening sign stands at a place before this text, and the place behind it.
fn quoted(alloc: Global, at: usize, sign: u8, text: &[u8]) -> Result<(Token<'_>, usize), LexFault>
    requires { at + 1 + length text.now < 2 ^ 63 }
    ensures gives { Gives result (quoted_at at sign text.now) }
    ensures within { IfOk result (λ word. word.1 ≤ at + 1 + length text.now) }
    ensures moved { IfOk result (λ word. at < word.1) }
{
    let Some(len) = scan::closing(sign, text) else {
        return Err(LexFault::Bad { at });
    };
    let inside = &text[..len];
    if let Some(i) = scan::refused(inside) {
        return Err(LexFault::Bad { at: at + 1 + i });
    }
    let behind = at + 2 + len;
    if !scan::may_follow(&text[len + 1..]) {
        return Err(LexFault::Bad { at: behind });
    }
    let text = unescaped(alloc, sign, inside)?;
    Ok((Token::Word { at, text }, behind))
}

/// Goes over a text, token by token. Contracts see the text and the place up to which it was read.
#[derive(Drop)]
pub struct Lexer<'t> {
    alloc: Global,
    text: &'t [u8],
    at: usize,
}

impl<'t> Model for Lexer<'t> {
    ghost use Rattle.std.specs.Prelude.{◌≤◌, length};
    ghost use Rattle.nc_conf_lex.specs.Reading.{LexerAt};

    ghost Value = { LexerAt };

    ghost view = { λ lexer. record { text = lexer.text.now; at = lexer.at } };

    ghost invariant = { λ lexer. lexer.at ≤ length lexer.text.now };
}

impl<'t> Lexer<'t> {
    /// A lexer at the text's first byte. The longer words that it gives take memory from `alloc`.
    pub fn new(alloc: Global, text: &'t [u8]) -> Lexer<'t>
        ensures text { result.text ≡ text.now }
        ensures at { result.at ≡ 0 }
    {
        Lexer { alloc, text, at: 0 }
    }

    /// The place up to which the text was read.
    pub fn at(&self) -> usize
        ensures { result ≡ self.now.at }
    {
        self.at
    }

    /// The next token. A call takes time in proportion to the bytes that it goes over.
    ///
    /// None comes exactly where only blanks and comments are left.
    /// Bad comes exactly where no token begins behind them, and names the place of the text's first fault.
    /// After None, Bad and NoMemory the lexer is where it was: after None and Bad each further call answers the same,
    /// and after NoMemory the same token may be asked for again.
    pub fn next(&mut self) -> Result<Option<Token<'t>>, LexFault>
        ensures text { self.new.text ≡ self.old.text }
        // What it answers comes next, and what comes next it answers.
        ensures told { IsTold self.old.text self.old.at self.new.at result }
        ensures answers { (next : Next) → Comes self.old.text self.old.at next → Answers result self.old.at self.new.at next }
        ensures within { self.new.at ≤ length self.new.text }
        ensures moved { IfOk result (λ token. IfSome token (λ t. self.old.at < self.new.at)) }
    {
        self.step()
    }

    fn step(&mut self) -> Result<Option<Token<'t>>, LexFault>
        ensures text { self.new.text ≡ self.old.text }
        ensures answers { Answers result self.old.at self.new.at (next_at self.old.text self.old.at) }
        ensures within { self.new.at ≤ length self.new.text }
        ensures moved { IfOk result (λ token. IfSome token (λ t. self.old.at < self.new.at)) }
    {
        let at = self.at + scan::gap_len(&self.text[self.at..]);
        let rest = &self.text[at..];
        let (token, behind) = match rest {
            [] => return Ok(None),
            [b';', ..] => (Token::End { at }, at + 1),
            [b'{', ..] => (Token::Opening { at }, at + 1),
            [b'}', ..] => (Token::Closing { at }, at + 1),
            [b'"', text @ ..] => quoted(self.alloc, at, b'"', text)?,
            [b'\'', text @ ..] => quoted(self.alloc, at, b'\'', text)?,
            [_, ..] => plain(self.alloc, at, rest)?,
        };
        self.at = behind;
        Ok(Some(token))
    }
}

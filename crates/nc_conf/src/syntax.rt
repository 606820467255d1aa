//! The directives of a text, up to where the text goes wrong.
ghost use Rattle.std.specs.Prelude.{◌≡◌, ◌++◌, ◌∷◌, [], true, None, IfOk, OnOk};
ghost use Rattle.nc_conf.specs.Syntax.{innermost};
ghost use Rattle.nc_conf.specs.Reader.{empty, after_word, after_line, after_opening, after_closing, after};
ghost use Rattle.nc_conf.specs.Reading.{IsPart};

use crate::judge::is_doubtful;
use nc_conf_lex::{LexFault, Lexer, Token, WordText};
use nc_types::{List, NoMemory};
use std::alloc::Global;
use std::marker::Model;

/// A word of a text and the place of its first byte.
#[derive(Drop)]
pub struct Word<'t> {
    pub at: usize,
    pub text: WordText<'t>,
}

/// A directive that was ended, by its `;` or by the `{` of its block.
#[derive(Drop)]
pub struct Directive<'t> {
    pub name: Word<'t>,
    pub args: List<Word<'t>>,
    /// The place of the sign that ended it.
    pub end: usize,
    /// Whether that sign begins a block.
    pub block: bool,
    /// The number of the directive in whose block it stands, counted from 0 over the whole text.
    pub within: Option<usize>,
}

/// The end of a block: the number of its directive, and the place of the `}`.
#[derive(Clone, Copy)]
pub struct Close {
    pub of: usize,
    pub at: usize,
}

/// A directive that has begun: its name and its arguments so far.
#[derive(Drop)]
pub struct Begun<'t> {
    pub name: Word<'t>,
    pub args: List<Word<'t>>,
}

/// What was read of a text, up to the first sign that cannot stand at its place.
#[derive(Drop)]
pub struct Syntax<'t> {
    pub directives: List<Directive<'t>>,
    pub closes: List<Close>,
    /// The numbers of the directives whose blocks are open, the innermost last.
    pub blocks: Vec<usize>,
    pub begun: Option<Begun<'t>>,
    /// The place of a sign that cannot stand there.
    pub broken: Option<usize>,
}

impl<'t> Model for Syntax<'t> {
    ghost use Rattle.std.specs.Prelude.{reverse};
    ghost use Rattle.nc_conf.specs.Reader.{SyntaxAt};

    ghost Value = { SyntaxAt };

    ghost view = { λ s. record { directives = s.directives; closes = s.closes; blocks = reverse s.blocks.items; begun = s.begun; broken = s.broken } };
}

/// How many arguments are so few that no room is taken for more. Most directives have one or two.
const FEW: usize = 3;

/// Words and one more behind them.
fn with_word<'t>(words: List<Word<'t>>, word: Word<'t>) -> Result<List<Word<'t>>, NoMemory>
    ensures { IfOk result (λ all. all ≡ words.entry ++ word.entry ∷ []) }
{
    let mut words = words.into_vec();
    if words.len() < FEW {
        words.reserve_exact(1)?;
    }
    words.push(word)?;
    Ok(List::of(words))
}

impl<'t> Syntax<'t> {
    fn new(alloc: Global) -> Syntax<'t>
        ensures { result ≡ empty }
    {
        Syntax {
            directives: List::new(alloc),
            closes: List::new(alloc),
            blocks: Vec::new(alloc),
            begun: None,
            broken: None,
        }
    }

    pub fn directives(&self) -> &[Directive<'t>]
        ensures { result.now ≡ self.now.directives }
    {
        self.directives.as_slice()
    }

    pub fn closes(&self) -> &[Close]
        ensures { result.now ≡ self.now.closes }
    {
        self.closes.as_slice()
    }

    fn add_word(&mut self, alloc: Global, word: Word<'t>) -> Result<(), NoMemory>
        ensures { OnOk result (self.new ≡ after_word self.old word.entry self.old.begun) }
    {
        match self.begun.take() {
            None => {
                self.begun = Some(Begun {
                    name: word,
                    args: List::new(alloc),
                });
            }
            Some(begun) => {
                let args = with_word(begun.args, word)?;
                self.begun = Some(Begun {
                    name: begun.name,
                    args,
                });
            }
        }
        Ok(())
    }

    fn innermost(&self) -> Option<usize>
        ensures { result ≡ innermost self.now.blocks }
    {
        self.blocks.last().copied()
    }

    fn end_line(&mut self, at: usize) -> Result<(), NoMemory>
        ensures { OnOk result (self.new ≡ after_line self.old at self.old.begun) }
    {
        let within = self.innermost();
        let Some(begun) = self.begun.take() else {
            self.broken = Some(at);
            return Ok(());
        };
        self.directives.push(Directive {
            name: begun.name,
            args: begun.args,
            end: at,
            block: false,
            within,
        })
    }

    fn open(&mut self, at: usize) -> Result<(), NoMemory>
        ensures { OnOk result (self.new ≡ after_opening self.old at self.old.begun) }
    {
        let within = self.innermost();
        let Some(begun) = self.begun.take() else {
            self.broken = Some(at);
            return Ok(());
        };
        self.blocks.push(self.directives.len())?;
        self.directives.push(Directive {
            name: begun.name,
            args: begun.args,
            end: at,
            block: true,
            within,
        })
    }

    fn close(&mut self, at: usize) -> Result<(), NoMemory>
        ensures { OnOk result (self.new ≡ after_closing self.old at self.old.begun) }
    {
        if self.begun.is_some() {
            self.broken = Some(at);
            return Ok(());
        }
        let Some(of) = self.blocks.pop() else {
            self.broken = Some(at);
            return Ok(());
        };
        self.closes.push(Close { of, at })
    }

    /// Whether a directive was ended that surely breaks a rule. It decides how far is read, not what is answered.
    fn is_doubtful(&self) -> bool
        ensures begun { result ≡ true → self.now.begun ≡ None }
        ensures broken { result ≡ true → self.now.broken ≡ None }
    {
        self.begun.is_none() && self.broken.is_none() && is_doubtful(self.directives())
    }

    /// Takes the next token. Nothing is taken behind a sign that cannot stand at its place.
    fn take(&mut self, alloc: Global, token: Token<'t>) -> Result<(), NoMemory>
        ensures { OnOk result (self.new ≡ after self.old token.entry) }
    {
        if self.broken.is_some() {
            return Ok(());
        }
        match token {
            Token::Word { at, text } => self.add_word(alloc, Word { at, text }),
            Token::End { at } => self.end_line(at),
            Token::Opening { at } => self.open(at),
            Token::Closing { at } => self.close(at),
        }
    }
}

/// What was read of a text, and the place of a lexical fault that ended it.
#[derive(Drop)]
pub struct Reading<'t> {
    pub syntax: Syntax<'t>,
    pub bad: Option<usize>,
    /// The place of the rest, where reading stopped before the text's end.
    pub rest: Option<usize>,
}

/// Reads the directives of a text, the whole of it or up to one that surely breaks a rule.
///
/// A text is so no dearer than what stands before its first fault.
pub fn read_syntax(alloc: Global, text: &[u8], whole: bool) -> Result<Reading<'_>, NoMemory>
    ensures part { IfOk result (λ r. IsPart text.now r.syntax r.bad r.rest) }
    ensures whole { whole ≡ true → IfOk result (λ r. r.rest ≡ None) }
{
    let mut lexer = Lexer::new(alloc, text);
    let mut syntax = Syntax::new(alloc);
    loop {
        if !whole && syntax.is_doubtful() {
            nc_conf_lex::laws::one_comes();
            return Ok(Reading {
                syntax,
                bad: None,
                rest: Some(lexer.at()),
            });
        }
        match lexer.next() {
            Ok(Some(token)) => syntax.take(alloc, token)?,
            Ok(None) => {
                return Ok(Reading {
                    syntax,
                    bad: None,
                    rest: None,
                });
            }
            Err(LexFault::Bad { at }) => {
                return Ok(Reading {
                    syntax,
                    bad: Some(at),
                    rest: None,
                });
            }
            Err(LexFault::NoMemory) => return Err(NoMemory),
        }
    }
}

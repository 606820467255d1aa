//! The words of the command line, and the command that they are.
//!
//! The top call stands above. Below stands `nc_types`, which reads numbers.
//! `specs/Words.antt` says which words are a command, and what the usage is.
#![tactic(auto)]

ghost use Rattle.std.specs.Prelude.{◌≡◌, ◌≤◌, ◌<◌, ◌∷◌, ◌↔◌, [], map, string_bytes, codes, IsTrue, IfSome, IfNone, ℕ};
ghost use Rattle.nc_types.specs.Text.{IsDecimal};
ghost use Rattle.nc_cli.specs.Words.{IsRead, OneCommand, usage_text};

use nc_types::text::read_decimal;

/// The greatest size of a load.
const GREATEST_SIZE: u64 = 65_535;

/// A command of the program.
#[derive(Clone, Copy, Debug, PartialEq, Eq)]
pub enum Command {
    /// `replay`: the journal of a script's lines.
    Replay,
    /// `check`: whether a configuration is accepted.
    Check,
    /// `load SEED SIZE`: what comes of a script that is made from two numbers, the size from 1 to 65,535.
    Load { seed: u64, size: u32 },
    /// The words are no command, so that the usage is printed.
    Usage,
}

fn is_word(word: &String, text: &[u8]) -> bool
    ensures { IsTrue result ↔ (string_bytes word.now ≡ text.now) }
{
    word.as_bytes() == text
}

fn read_word(word: &String) -> Command
    ensures { IsRead (string_bytes word.now ∷ []) result }
{
    if is_word(word, b"replay") {
        return Command::Replay;
    }
    if is_word(word, b"check") {
        return Command::Check;
    }
    Command::Usage
}

/// The size of a load.
fn read_size(word: &String) -> Option<u32>
    ensures some { IfSome result (λ n. IsDecimal (string_bytes word.now) n × (1 ≤ n) × (n ≤ 65535)) }
    ensures none { IfNone result ((n : ℕ) → IsDecimal (string_bytes word.now) n → 1 ≤ n → n ≤ 65535 → ⊥) }
{
    let n = read_decimal(word.as_bytes(), GREATEST_SIZE)?;
    if n == 0 { None } else { Some(n as u32) }
}

/// The load of a seed and a size, or the usage where one of them can't be read.
fn read_load(seed: &String, size: &String) -> Command
    ensures { IsRead (codes "load" ∷ string_bytes seed.now ∷ string_bytes size.now ∷ []) result }
{
    let Some(seed) = read_decimal(seed.as_bytes(), u64::MAX) else {
        return Command::Usage;
    };
    let Some(size) = read_size(size) else {
        return Command::Usage;
    };
    Command::Load { seed, size }
}

fn read_three(name: &String, seed: &String, size: &String) -> Command
    ensures { IsRead (string_bytes name.now ∷ string_bytes seed.now ∷ string_bytes size.now ∷ []) result }
{
    if is_word(name, b"load") {
        return read_load(seed, size);
    }
    Command::Usage
}

/// The command that the words behind the program's name are.
pub fn read_words(words: &[String]) -> Command
    ensures { IsRead (map string_bytes words.now) result }
{
    match words {
        [word] => read_word(word),
        [name, seed, size] => read_three(name, seed, size),
        _ => Command::Usage,
    }
}

/// The usage: one line, with its LF.
pub fn usage() -> &'static [u8]
    ensures { result.now ≡ usage_text }
{
    b"usage: nchan replay | check | load SEED SIZE | serve\n"
}

/// The same words are never two commands.
pub fn one_command()
    ensures { OneCommand }
{}

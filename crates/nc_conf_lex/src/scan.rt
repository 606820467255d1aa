//! Runs of bytes: blanks and comments, plain words, the inside of quoted words.
//!
//! The lexer puts them together.
ghost use Rattle.std.specs.Prelude.{◌≡◌, ◌≤◌, ◌<◌, false, length, position, IfOk, IfSome};
ghost use Rattle.std.specs.List.{prefix_len, list_any};
ghost use Rattle.nc_conf_lex.specs.Byte.{is_blank, ends_word, goes_on, is_refused, may_follow};
ghost use Rattle.nc_conf_lex.specs.Spelling.{can_escape};
ghost use Rattle.nc_conf_lex.specs.Scan.{gap_len, closing, is_backslash, unescape};

use std::alloc::{AllocError, Global};

fn is_blank(byte: u8) -> bool
    ensures { result ≡ is_blank byte }
{
    matches!(byte, b' ' | b'\t' | b'\r' | b'\n')
}

fn ends_word(byte: u8) -> bool
    ensures { result ≡ ends_word byte }
{
    is_blank(byte) || matches!(byte, b';' | b'{' | b'}')
}

fn is_refused(byte: u8) -> bool
    ensures { result ≡ is_refused byte }
{
    (byte < 0x20 && !is_blank(byte)) || byte == 0x7F
}

fn can_escape(sign: u8, byte: u8) -> bool
    ensures { result ≡ can_escape sign byte }
{
    byte == sign || byte == b'\\'
}

/// How many bytes are blanks and comments.
pub fn gap_len(text: &[u8]) -> usize
    ensures len { result ≡ gap_len false text.now }
    ensures within { result ≤ length text.now }
{
    let mut comment = false;
    for (i, byte) in text.iter().enumerate() {
        if comment {
            comment = *byte != b'\n';
        } else if *byte == b'#' {
            comment = true;
        } else if !is_blank(*byte) {
            return i;
        }
    }
    text.len()
}

/// How many bytes a plain word has.
pub fn word_len(text: &[u8]) -> usize
    ensures len { result ≡ prefix_len goes_on text.now }
    ensures within { result ≤ length text.now }
{
    for (i, byte) in text.iter().enumerate() {
        if ends_word(*byte) {
            return i;
        }
    }
    text.len()
}

/// The place of the first byte that stands in comments alone.
pub fn refused(text: &[u8]) -> Option<usize>
    ensures place { result ≡ position is_refused text.now }
    ensures within { IfSome result (λ i. i < length text.now) }
{
    text.iter().position(|byte| is_refused(*byte))
}

/// The place of the sign that closes a quoted word, in the bytes behind the opening one.
pub fn closing(sign: u8, text: &[u8]) -> Option<usize>
    ensures place { result ≡ closing sign false text.now }
    ensures within { IfSome result (λ i. i < length text.now) }
{
    let mut escaped = false;
    for (i, byte) in text.iter().enumerate() {
        if escaped && can_escape(sign, *byte) {
            escaped = false;
        } else if *byte == sign {
            return Some(i);
        } else {
            escaped = *byte == b'\\';
        }
    }
    None
}

/// Whether there is a backslash.
pub fn has_backslash(text: &[u8]) -> bool
    ensures { result ≡ list_any is_backslash text.now }
{
    text.iter().any(|byte| *byte == b'\\')
}

/// What the inside of a quoted word stands for.
pub fn unescape(alloc: Global, sign: u8, inside: &[u8]) -> Result<Vec<u8>, AllocError>
    ensures { IfOk result (λ word. word.items ≡ unescape sign false inside.now) }
{
    let mut word = Vec::new(alloc);
    let mut escaped = false;
    for byte in inside {
        if escaped {
            if !can_escape(sign, *byte) {
                word.push(b'\\')?;
            }
            word.push(*byte)?;
            escaped = false;
        } else if *byte == b'\\' {
            escaped = true;
        } else {
            word.push(*byte)?;
        }
    }
    if escaped {
        word.push(b'\\')?;
    }
    Ok(word)
}

/// Whether a word may end before this text.
pub fn may_follow(text: &[u8]) -> bool
    ensures { result ≡ may_follow text.now }
{
    match text {
        [] => true,
        [byte, ..] => ends_word(*byte),
    }
}

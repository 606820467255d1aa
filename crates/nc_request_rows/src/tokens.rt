//! Rows of the lexer: a text, and its tokens.
//!
//! A token is its place and its sign, or its word between `<` and `>`; then `.` at the end, or `!` behind the place of
//! the first fault.

use crate::put::{put_decoded, put_number, put_text};
use nc_conf_lex::{LexFault, Lexer, Token};
use nc_types::NoMemory;
use std::alloc::Global;

fn put_token(out: &mut Vec<u8>, token: &Token<'_>) -> Result<(), NoMemory> {
    match token {
        Token::Word { at, text } => {
            put_number(out, b" ", *at as u64)?;
            put_text(out, b"<", text.as_slice())?;
            put_text(out, b">", b"")
        }
        Token::Opening { at } => put_sign(out, *at, b"{"),
        Token::Closing { at } => put_sign(out, *at, b"}"),
        Token::End { at } => put_sign(out, *at, b";"),
    }
}

fn put_sign(out: &mut Vec<u8>, at: usize, sign: &[u8]) -> Result<(), NoMemory> {
    put_number(out, b" ", at as u64)?;
    put_text(out, sign, b"")
}

/// The next token, and whether there may be another.
fn put_next(lexer: &mut Lexer<'_>, out: &mut Vec<u8>) -> Result<bool, NoMemory> {
    match lexer.next() {
        Ok(Some(token)) => {
            put_token(out, &token)?;
            Ok(true)
        }
        Ok(None) => {
            put_text(out, b" .", b"")?;
            Ok(false)
        }
        Err(LexFault::Bad { at }) => {
            put_sign(out, at, b"!")?;
            Ok(false)
        }
        Err(LexFault::NoMemory) => Err(NoMemory),
    }
}

/// The tokens of a text, up to its end or first fault.
pub fn put_tokens(alloc: Global, row: &str, out: &mut Vec<u8>) -> Result<(), NoMemory> {
    let mut text = Vec::new(alloc);
    put_decoded(&mut text, row)?;
    let mut lexer = Lexer::new(alloc, &text);
    for _ in 0..=text.len() {
        if !put_next(&mut lexer, out)? {
            return Ok(());
        }
    }
    Ok(())
}

/// What two calls answer, one after the other.
pub fn put_twice(alloc: Global, row: &str, out: &mut Vec<u8>) -> Result<(), NoMemory> {
    let mut text = Vec::new(alloc);
    put_decoded(&mut text, row)?;
    let mut lexer = Lexer::new(alloc, &text);
    put_next(&mut lexer, out)?;
    put_next(&mut lexer, out)?;
    Ok(())
}

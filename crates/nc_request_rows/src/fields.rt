//! Rows of fields and openings. The fields of a head stand behind a `|` each, as `name:value`.

use crate::put::put_text;
use nc_accept::fields::{
    first_value, freed, has_item, has_word, is_called, is_same_word, only_value,
};
use nc_accept::{HandRefusal, Opening, judge};
use nc_types::{Bytes, Field, List, NoMemory, Request};
use std::alloc::Global;

/// A text as bytes of its own.
pub fn bytes(alloc: Global, text: &str) -> Result<Bytes, NoMemory> {
    Ok(List::of(Vec::from_slice(alloc, text.as_bytes())?))
}

/// The field of a text `name:value`.
fn field(alloc: Global, line: &str) -> Result<Field, NoMemory> {
    let (name, value) = line.split_once(':').unwrap_or((line, ""));
    Ok(Field {
        name: bytes(alloc, name)?,
        value: bytes(alloc, value)?,
    })
}

/// The fields of texts `name:value`, each but the last ended by `|`.
pub fn fields(alloc: Global, lines: &str) -> Result<List<Field>, NoMemory> {
    let mut fields = List::new(alloc);
    for line in lines.split('|') {
        if !line.is_empty() {
            fields.push(field(alloc, line)?)?;
        }
    }
    Ok(fields)
}

fn request(alloc: Global, lines: &str) -> Result<Request, NoMemory> {
    Ok(Request {
        method: bytes(alloc, "GET")?,
        path: bytes(alloc, "/sub")?,
        query: None,
        minor: 1,
        fields: fields(alloc, lines)?,
        body: List::new(alloc),
    })
}

fn put_opening(out: &mut Vec<u8>, opening: &Opening) -> Result<(), NoMemory> {
    let word = if opening.meta {
        b" meta ".as_slice()
    } else {
        b" plain ".as_slice()
    };
    put_text(out, word, opening.key.as_slice())
}

/// The opening that fields ask for, or the condition that they break.
fn put_judged(alloc: Global, lines: &str, out: &mut Vec<u8>) -> Result<(), NoMemory> {
    let request = request(alloc, lines)?;
    match judge(alloc, &request) {
        Ok(opening) => put_opening(out, &opening),
        Err(HandRefusal::Connection) => put_text(out, b" no connection", b""),
        Err(HandRefusal::Version) => put_text(out, b" no version", b""),
        Err(HandRefusal::Key) => put_text(out, b" no key", b""),
        Err(HandRefusal::NoMemory) => Err(NoMemory),
    }
}

fn put_yes(out: &mut Vec<u8>, holds: bool) -> Result<(), NoMemory> {
    let word = if holds {
        b" yes".as_slice()
    } else {
        b" no".as_slice()
    };
    put_text(out, word, b"")
}

/// A value between `<` and `>`, or none.
fn put_value(out: &mut Vec<u8>, value: Option<&[u8]>) -> Result<(), NoMemory> {
    match value {
        None => put_text(out, b" none", b""),
        Some(value) => {
            put_text(out, b" <", value)?;
            put_text(out, b">", b"")
        }
    }
}

/// Whether each field of a list is called so.
fn put_called(name: &[u8], fields: &[Field], out: &mut Vec<u8>) -> Result<(), NoMemory> {
    for field in fields {
        put_yes(out, is_called(name, field))?;
    }
    Ok(())
}

/// What a call says of the fields of a head: of a name, and of a text behind a `;` where there is one.
fn put_found(word: &str, asked: &str, fields: &[Field], out: &mut Vec<u8>) -> Result<(), NoMemory> {
    let (name, text) = asked.split_once(';').unwrap_or((asked, ""));
    let name = name.as_bytes();
    if word == "word" {
        put_yes(out, has_word(name, text.as_bytes(), fields))
    } else if word == "item" {
        put_yes(out, has_item(name, text.as_bytes(), fields))
    } else if word == "only" {
        put_value(out, only_value(name, fields))
    } else if word == "first" {
        put_value(out, first_value(name, fields))
    } else {
        put_called(name, fields, out)
    }
}

fn asks_fields(word: &str) -> bool {
    word == "word" || word == "item" || word == "only" || word == "first" || word == "called"
}

/// What a row of fields or openings comes to, if it is one.
pub fn put_row(alloc: Global, word: &str, rest: &str, out: &mut Vec<u8>) -> Result<bool, NoMemory> {
    if word == "opening" {
        put_judged(alloc, rest, out)?;
    } else if word == "freed" {
        put_value(out, Some(freed(rest.as_bytes())))?;
    } else if word == "same" {
        let (left, right) = rest.split_once(' ').unwrap_or((rest, ""));
        put_yes(out, is_same_word(left.as_bytes(), right.as_bytes()))?;
    } else if asks_fields(word) {
        let (asked, lines) = rest.split_once('|').unwrap_or((rest, ""));
        let fields = fields(alloc, lines)?;
        put_found(word, asked, fields.as_slice(), out)?;
    } else {
        return Ok(false);
    }
    Ok(true)
}

//! Rows of openings. The fields of a head stand behind a `|` each, as `name:value`.

use nc_accept::{HandRefusal, judge, reply};
use nc_types::text::quote;
use nc_types::{Bytes, Field, List, NoMemory, Request};
use std::alloc::Global;

/// A text as bytes of its own.
fn bytes(alloc: Global, text: &str) -> Result<Bytes, NoMemory> {
    Ok(List::of(Vec::from_slice(alloc, text.as_bytes())?))
}

/// The field of a text `name:value`.
fn field(alloc: Global, line: &str) -> Result<Field, NoMemory> {
    let (name, value) = line.split_once(':').unwrap_or((line, ""));
    Ok(Field {
        name: bytes(alloc, name)?,
        value: bytes(alloc, value)?,
    })
}

fn fields(alloc: Global, lines: &str) -> Result<List<Field>, NoMemory> {
    let mut fields = List::new(alloc);
    for line in lines.split('|') {
        fields.push(field(alloc, line)?)?;
    }
    Ok(fields)
}

fn request(alloc: Global, lines: &str) -> Result<Request, NoMemory> {
    Ok(Request {
        method: bytes(alloc, "GET")?,
        path: bytes(alloc, "/sub")?,
        query: None,
        minor: 1,
        fields: fields(alloc, lines)?,
        body: List::new(alloc),
    })
}

/// The answer to the opening that fields ask for, between quotes.
pub fn put_answer(alloc: Global, lines: &str, out: &mut Vec<u8>) -> Result<(), NoMemory> {
    let request = request(alloc, lines)?;
    let opening = match judge(alloc, &request) {
        Ok(opening) => opening,
        Err(HandRefusal::NoMemory) => return Err(NoMemory),
        Err(_) => {
            out.extend_from_slice(b" refused")?;
            return Ok(());
        }
    };
    let text = reply(alloc, &opening)?;
    out.push(b' ')?;
    out.extend_from_slice(quote(alloc, text.as_slice())?.as_slice())?;
    Ok(())
}

//! Rows of configurations: a text, and its first fault or what it configures.

use crate::put::{put_decoded, put_if, put_number, put_text};
use nc_conf::{ConfFault, read_config};
use nc_types::{Config, IdPart, IdText, Listen, Location, NoMemory, Settings};
use std::alloc::Global;

/// A configuration without a fault.
pub const SAMPLE: &str = "worker_processes 1;
events { worker_connections 1024; }
http {
  server {
    listen 8080;
    location = /pub { nchan_publisher; nchan_channel_id $arg_id; }
    location = /sub { nchan_subscriber; nchan_channel_id $arg_id; }
    location = /both { nchan_subscriber; nchan_channel_id $arg_a $arg_b; }
  }
}
";

/// The rule and the place of the first fault of a text; the rule 0 is for none.
fn fault_of(alloc: Global, text: &[u8]) -> Result<(u8, usize), NoMemory> {
    match read_config(alloc, text) {
        Ok(_) => Ok((0, 0)),
        Err(ConfFault::Rule { rule, at }) => Ok((rule, at)),
        Err(ConfFault::NoMemory) => Err(NoMemory),
    }
}

/// A rule and a place, or that there is no fault.
fn put_fault(out: &mut Vec<u8>, rule: u8, at: usize) -> Result<(), NoMemory> {
    if rule == 0 {
        return put_text(out, b" no fault", b"");
    }
    put_number(out, b" ", u64::from(rule))?;
    put_number(out, b" ", at as u64)
}

/// What stands for a piece of the sample, without its mark, and the place of the mark, which is the end of the text
/// where there is none.
fn put_marked(text: &mut Vec<u8>, by: &str, behind: &str) -> Result<usize, NoMemory> {
    if let Some((left, right)) = by.split_once('@') {
        put_decoded(text, left)?;
        let at = text.len();
        put_decoded(text, right)?;
        put_text(text, behind.as_bytes(), b"")?;
        return Ok(at);
    }
    put_decoded(text, by)?;
    put_text(text, behind.as_bytes(), b"")?;
    Ok(text.len())
}

/// A row `PIECE|BY`: the first fault of the sample with something for a piece of it. A fault that stands at the mark,
/// an `@` that is left out, has `@` for its place.
pub fn put_planted(alloc: Global, row: &str, out: &mut Vec<u8>) -> Result<(), NoMemory> {
    let (piece, by) = row.split_once('|').unwrap_or((row, ""));
    let (before, behind) = SAMPLE.split_once(piece).unwrap_or((SAMPLE, ""));
    let mut text = Vec::from_slice(alloc, before.as_bytes())?;
    let marked = put_marked(&mut text, by, behind)?;
    let (rule, at) = fault_of(alloc, &text)?;
    if rule != 0 && at == marked {
        put_number(out, b" ", u64::from(rule))?;
        return put_text(out, b" @", b"");
    }
    put_fault(out, rule, at)
}

/// A row of a text: its first fault.
pub fn put_text_fault(alloc: Global, row: &str, out: &mut Vec<u8>) -> Result<(), NoMemory> {
    let (rule, at) = fault_of(alloc, row.as_bytes())?;
    put_fault(out, rule, at)
}

/// A setting's line, unless its value is `-`.
fn put_setting_line(text: &mut Vec<u8>, name: &str, value: &str) -> Result<(), NoMemory> {
    if value == "-" {
        return Ok(());
    }
    put_text(text, name.as_bytes(), b" ")?;
    put_text(text, value.as_bytes(), b"; ")
}

/// The text of a setting that http, its server and its first location have.
fn put_nested(
    text: &mut Vec<u8>,
    name: &str,
    http: &str,
    server: &str,
    location: &str,
) -> Result<(), NoMemory> {
    put_text(text, b"http { ", b"")?;
    put_setting_line(text, name, http)?;
    put_text(text, b"server { ", b"")?;
    put_setting_line(text, name, server)?;
    put_text(text, b"location /a { ", b"")?;
    put_setting_line(text, name, location)?;
    put_text(text, b"} location /b { } } }", b"")
}

/// The value of a setting.
fn value(settings: &Settings, name: &str) -> u64 {
    if name == "nchan_message_buffer_length" {
        u64::from(settings.length)
    } else if name == "nchan_message_timeout" {
        settings.timeout
    } else if name == "nchan_subscriber_timeout" {
        settings.sub_timeout
    } else if name == "nchan_subscriber_first_message" {
        u64::from(settings.newest)
    } else if name == "nchan_max_channel_id_length" {
        u64::from(settings.max_name)
    } else {
        u64::from(settings.max_body)
    }
}

/// The value of a setting at the server and at each location.
fn put_values(alloc: Global, text: &[u8], name: &str, out: &mut Vec<u8>) -> Result<(), NoMemory> {
    let config = match read_config(alloc, text) {
        Ok(config) => config,
        Err(ConfFault::Rule { rule, at }) => return put_fault(out, rule, at),
        Err(ConfFault::NoMemory) => return Err(NoMemory),
    };
    put_number(out, b" ", value(&config.base, name))?;
    for location in config.locations.as_slice() {
        put_number(out, b" ", value(&location.settings, name))?;
    }
    Ok(())
}

/// A row `NAME HTTP SERVER LOCATION`: the values of a setting that http, its server and its first location have, `-` for
/// none, at the server, the first location and the second.
pub fn put_setting(alloc: Global, row: &str, out: &mut Vec<u8>) -> Result<(), NoMemory> {
    let (name, rest) = row.split_once(' ').unwrap_or((row, ""));
    let (http, rest) = rest.split_once(' ').unwrap_or((rest, ""));
    let (server, location) = rest.split_once(' ').unwrap_or((rest, ""));
    let mut text = Vec::new(alloc);
    put_nested(&mut text, name, http, server, location)?;
    put_values(alloc, &text, name, out)
}

fn put_id(out: &mut Vec<u8>, id: &IdText) -> Result<(), NoMemory> {
    put_text(out, b" ", b"")?;
    for part in id.parts.as_slice() {
        match part {
            IdPart::Plain(text) => put_text(out, text.as_slice(), b"")?,
            IdPart::Arg(name) => {
                put_text(out, b"<", name.as_slice())?;
                put_text(out, b">", b"")?;
            }
        }
    }
    Ok(())
}

fn put_location(out: &mut Vec<u8>, location: &Location) -> Result<(), NoMemory> {
    put_text(out, b" | ", b"")?;
    put_if(out, location.exact, b"= ")?;
    put_text(out, location.path.as_slice(), b"")?;
    put_if(out, location.publisher, b" publish")?;
    put_if(out, location.longpoll, b" longpoll")?;
    put_if(out, location.socket, b" websocket")?;
    for id in location.ids.as_slice() {
        put_id(out, id)?;
    }
    Ok(())
}

fn put_listen(out: &mut Vec<u8>, listen: &Listen) -> Result<(), NoMemory> {
    put_text(out, b" | ", listen.host.as_slice())?;
    put_number(out, b":", u64::from(listen.port))
}

/// A configuration in words: its workers and slots, the length and the time of its base, its addresses, and its locations.
fn put_words(out: &mut Vec<u8>, config: &Config) -> Result<(), NoMemory> {
    put_number(out, b" ", u64::from(config.workers))?;
    put_number(out, b" ", u64::from(config.slots))?;
    put_number(out, b" ", u64::from(config.base.length))?;
    put_number(out, b" ", config.base.timeout)?;
    for listen in config.listen.as_slice() {
        put_listen(out, listen)?;
    }
    for location in config.locations.as_slice() {
        put_location(out, location)?;
    }
    Ok(())
}

/// The configuration of a text in words.
pub fn put_config(alloc: Global, text: &[u8], out: &mut Vec<u8>) -> Result<(), NoMemory> {
    match read_config(alloc, text) {
        Ok(config) => put_words(out, &config),
        Err(ConfFault::Rule { rule, at }) => put_fault(out, rule, at),
        Err(ConfFault::NoMemory) => Err(NoMemory),
    }
}

fn number(text: &str) -> u32 {
    text.parse::<u32>().unwrap_or(0)
}

/// A location of a number.
fn put_numbered(text: &mut Vec<u8>, i: u32) -> Result<(), NoMemory> {
    put_number(text, b"location /", u64::from(i))?;
    put_text(
        text,
        b" { nchan_publisher; nchan_channel_id a$arg_b; } ",
        b"",
    )
}

/// A row `LINES LOCATIONS`: the first fault of a text of a location with many lines, and of many locations.
pub fn put_wide(alloc: Global, row: &str, out: &mut Vec<u8>) -> Result<(), NoMemory> {
    let (lines, locations) = row.split_once(' ').unwrap_or((row, ""));
    let mut text = Vec::from_slice(alloc, b"http { server { location /x { ")?;
    for _ in 0..number(lines) {
        put_text(&mut text, b"nchan_channel_id a; ", b"")?;
    }
    put_text(&mut text, b"} ", b"")?;
    for i in 0..number(locations) {
        put_numbered(&mut text, i)?;
    }
    put_text(&mut text, b"} }", b"")?;
    let (rule, at) = fault_of(alloc, &text)?;
    put_fault(out, rule, at)
}

/// A row `DEPTH`: the first fault of a text of blocks in blocks, of names that are not known.
pub fn put_deep(alloc: Global, row: &str, out: &mut Vec<u8>) -> Result<(), NoMemory> {
    let mut text = Vec::new(alloc);
    for _ in 0..number(row) {
        put_text(&mut text, b"a{", b"")?;
    }
    for _ in 0..number(row) {
        put_text(&mut text, b"}", b"")?;
    }
    let (rule, at) = fault_of(alloc, &text)?;
    put_fault(out, rule, at)
}

//! Rows of requests: `METHOD TARGET BODY` and the fields of the head, and what is decided of the request.

use crate::fields::{bytes, fields};
use crate::put::{put_number, put_text};
use nc_conf::{ConfFault, read_config};
use nc_route::laws::{decisions_are_sound, one_decision};
use nc_route::{Decision, rule};
use nc_types::{Allow, ChanList, ChanName, Config, NoMemory, Request, Start};
use std::alloc::Global;

/// The configuration that decides.
const ROUTES: &str = "http { server {
  location /chat/s { nchan_subscriber websocket; nchan_channel_id $arg_id; }
  location /chat/sock { nchan_pubsub; nchan_channel_id $arg_id; }
  location /chat {
    nchan_subscriber longpoll; nchan_channel_id room-$arg_id;
    nchan_subscriber_first_message newest; nchan_max_channel_id_length 6;
  }
  location /both { nchan_channel_id $arg_id; }
  location = /pub { nchan_publisher; nchan_channel_id $arg_id; }
  location = /sub { nchan_subscriber; nchan_channel_id $arg_id; }
  location = /both { nchan_subscriber; nchan_channel_id $arg_a $arg_b; }
  location /pair {
    nchan_publisher; nchan_channel_id $arg_a $arg_b;
    nchan_subscriber_first_message newest; nchan_max_channel_id_length 4; client_max_body_size 5;
  }
} }
";

/// A request of a line `METHOD TARGET BODY`, with the fields of its head behind a `|` each.
fn request(alloc: Global, row: &str) -> Result<Request, NoMemory> {
    let (line, lines) = row.split_once('|').unwrap_or((row, ""));
    let (method, rest) = line.split_once(' ').unwrap_or((line, ""));
    let (target, body) = rest.split_once(' ').unwrap_or((rest, ""));
    let (path, query) = target.split_once('?').unwrap_or((target, ""));
    let query = if path.len() == target.len() {
        None
    } else {
        Some(bytes(alloc, query)?)
    };
    Ok(Request {
        method: bytes(alloc, method)?,
        path: bytes(alloc, path)?,
        query,
        minor: 1,
        fields: fields(alloc, lines)?,
        body: bytes(alloc, body)?,
    })
}

/// A row `N`: a long poll of a channel whose id has N letters.
fn long_row(alloc: Global, row: &str) -> Result<String, NoMemory> {
    let mut text = String::from_str(alloc, "GET /sub?id=")?;
    for _ in 0..row.parse::<u32>().unwrap_or(0) {
        text.push_str("a")?;
    }
    Ok(text)
}

fn put_names(out: &mut Vec<u8>, names: &[ChanName]) -> Result<(), NoMemory> {
    for name in names {
        put_text(out, b" ", name.bytes.as_slice())?;
    }
    Ok(())
}

fn put_tags(out: &mut Vec<u8>, tags: &[i32]) -> Result<(), NoMemory> {
    for tag in tags {
        match u64::try_from(*tag) {
            Ok(tag) => put_number(out, b",", tag)?,
            Err(_) => put_text(out, b",-", b"")?,
        }
    }
    Ok(())
}

fn put_start(out: &mut Vec<u8>, start: &Start) -> Result<(), NoMemory> {
    match start {
        Start::Oldest => put_text(out, b" oldest", b""),
        Start::Newest => put_text(out, b" newest", b""),
        Start::Given(cursor) => {
            put_number(out, b" at ", cursor.time)?;
            put_tags(out, cursor.tags.as_slice())
        }
    }
}

fn allowed(allow: Allow) -> &'static [u8] {
    match allow {
        Allow::Nothing => b"",
        Allow::Subscriber => b" as a subscriber",
        Allow::Publisher => b" as a publisher",
    }
}

/// The channels of a subscription, and its start.
fn put_subscription(out: &mut Vec<u8>, list: &ChanList, start: &Start) -> Result<(), NoMemory> {
    put_names(out, list.names.as_slice())?;
    put_start(out, start)
}

fn put_decision(out: &mut Vec<u8>, decision: &Decision) -> Result<(), NoMemory> {
    match decision {
        Decision::Publish {
            chan,
            content_type,
            body,
            ..
        } => {
            put_text(out, b" publish ", chan.bytes.as_slice())?;
            if let Some(content_type) = content_type {
                put_text(out, b" type ", content_type.as_slice())?;
            }
            put_text(out, b" body ", body.as_slice())
        }
        Decision::Inform { chan } => put_text(out, b" inform ", chan.bytes.as_slice()),
        Decision::Delete { chan } => put_text(out, b" delete ", chan.bytes.as_slice()),
        Decision::LongPoll { list, start, .. } => {
            put_text(out, b" longpoll", b"")?;
            put_subscription(out, list, start)
        }
        Decision::Socket {
            list,
            start,
            opening,
            ..
        } => {
            let word = if opening.meta {
                b" meta".as_slice()
            } else {
                b" socket".as_slice()
            };
            put_text(out, word, b"")?;
            put_subscription(out, list, start)
        }
        Decision::Refuse {
            status,
            rule,
            allow,
        } => {
            put_number(out, b" ", u64::from(*status))?;
            put_number(out, b" by ", u64::from(*rule))?;
            put_text(out, allowed(*allow), b"")
        }
    }
}

/// What a configuration decides of a row.
fn put_decided(alloc: Global, conf: &Config, row: &str, out: &mut Vec<u8>) -> Result<(), NoMemory> {
    let request = request(alloc, row)?;
    let decision = rule(alloc, conf, &request)?;
    put_decision(out, &decision)
}

/// What a row comes to.
pub fn put_row(alloc: Global, word: &str, rest: &str, out: &mut Vec<u8>) -> Result<(), NoMemory> {
    one_decision();
    decisions_are_sound();
    let conf = match read_config(alloc, ROUTES.as_bytes()) {
        Ok(conf) => conf,
        Err(ConfFault::Rule { .. }) => return put_text(out, b" no configuration", b""),
        Err(ConfFault::NoMemory) => return Err(NoMemory),
    };
    if word == "long" {
        let row = long_row(alloc, rest)?;
        put_decided(alloc, &conf, row.as_str(), out)
    } else if word == "request" {
        put_decided(alloc, &conf, rest, out)
    } else {
        put_text(out, b" no row", b"")
    }
}

//! The configuration of directives without faults.
ghost use Rattle.std.specs.Prelude.{◌≡◌, ◌≤◌, ◌∷◌, [], ◌++◌, Some, None, length, map, position, unwrap_or, filter, codes, IfOk, IfSome, OnOk};
ghost use Rattle.std.specs.List.{slice_split, prefix_len, list_any, filter_map};
ghost use Rattle.std.specs.Option.{option_copied};
ghost use Rattle.nc_types.specs.Config.{IsWorkers, IsSlots};
ghost use Rattle.nc_types.specs.Settings.{IsLength, IsSeconds, IsNameLimit, IsBodyLimit};
ghost use Rattle.nc_conf.specs.Value.{is_dollar, is_name_byte, plain_part, arg_parts, parts_of, id_text, address};
ghost use Rattle.nc_conf.specs.Config.{line_in, around, inherited, number_or, has_argument, settings_of, is_way_of, allows, subscribes, id_of, ids_of, text_of, location_of, has_name, locations_from, listened, addresses_or, addresses, block_named, base_block, config_of};

use crate::judge::{has_name, has_word, is_exact, path_of};
use crate::lines::{Line, Lines};
use crate::syntax::{Directive, Word};
use crate::value;
use nc_types::{Bytes, Config, IdPart, IdText, List, Listen, Location, NoMemory, Settings};
use std::alloc::{AllocError, Global};

/// The block around a block.
fn around(directives: &[Directive<'_>], block: Option<usize>) -> Option<usize>
    ensures { result ≡ around directives.now block }
{
    let d = directives.get(block?)?;
    d.within
}

/// The line of a setting: the block's own, else that of the block around it, else that of the next.
fn inherited<'l, 'd, 't>(
    directives: &[Directive<'_>],
    lines: &'l Lines<'d, 't>,
    block: Option<usize>,
    name: &'d [u8],
) -> Option<&'l Line<'d, 't>>
    requires { lines.now ≡ directives.now }
    ensures { option_copied result ≡ inherited lines.now block name.now }
{
    let outer = around(directives, block);
    if let Some(line) = lines.first(block, name) {
        return Some(line);
    }
    if let Some(line) = lines.first(outer, name) {
        return Some(line);
    }
    lines.first(around(directives, outer), name)
}

fn number_or(otherwise: u32, line: Option<&Line<'_, '_>>) -> u32
    ensures { result ≡ number_or otherwise (option_copied line.entry) }
{
    match line {
        None => otherwise,
        Some(line) => line.number().unwrap_or(otherwise),
    }
}

fn has_argument(text: &[u8], line: Option<&Line<'_, '_>>) -> bool
    ensures { result ≡ has_argument text.now (option_copied line.entry) }
{
    match line {
        None => false,
        Some(line) => has_word(line.directive().args.as_slice(), text),
    }
}

fn buffer_length(directives: &[Directive<'_>], lines: &Lines<'_, '_>, block: Option<usize>) -> u32
    requires { lines.now ≡ directives.now }
    ensures is { result ≡ number_or 10 (inherited lines.now block (codes "nchan_message_buffer_length")) }
    ensures within { IsLength result }
{
    number_or(
        10,
        inherited(directives, lines, block, b"nchan_message_buffer_length"),
    )
}

fn message_timeout(directives: &[Directive<'_>], lines: &Lines<'_, '_>, block: Option<usize>) -> u32
    requires { lines.now ≡ directives.now }
    ensures is { result ≡ number_or 3600 (inherited lines.now block (codes "nchan_message_timeout")) }
    ensures within { IsSeconds result }
{
    number_or(
        3_600,
        inherited(directives, lines, block, b"nchan_message_timeout"),
    )
}

fn subscriber_timeout(
    directives: &[Directive<'_>],
    lines: &Lines<'_, '_>,
    block: Option<usize>,
) -> u32
    requires { lines.now ≡ directives.now }
    ensures is { result ≡ number_or 0 (inherited lines.now block (codes "nchan_subscriber_timeout")) }
    ensures within { IsSeconds result }
{
    number_or(
        0,
        inherited(directives, lines, block, b"nchan_subscriber_timeout"),
    )
}

fn name_limit(directives: &[Directive<'_>], lines: &Lines<'_, '_>, block: Option<usize>) -> u32
    requires { lines.now ≡ directives.now }
    ensures is { result ≡ number_or 1024 (inherited lines.now block (codes "nchan_max_channel_id_length")) }
    ensures within { IsNameLimit result }
{
    number_or(
        1_024,
        inherited(directives, lines, block, b"nchan_max_channel_id_length"),
    )
}

fn body_limit(directives: &[Directive<'_>], lines: &Lines<'_, '_>, block: Option<usize>) -> u32
    requires { lines.now ≡ directives.now }
    ensures is { result ≡ number_or 65536 (inherited lines.now block (codes "client_max_body_size")) }
    ensures within { IsBodyLimit result }
{
    number_or(
        65_536,
        inherited(directives, lines, block, b"client_max_body_size"),
    )
}

/// The settings of a block.
fn settings_of(
    directives: &[Directive<'_>],
    lines: &Lines<'_, '_>,
    block: Option<usize>,
) -> Settings
    requires { lines.now ≡ directives.now }
    ensures { result ≡ settings_of lines.now block }
{
    let first_message = inherited(directives, lines, block, b"nchan_subscriber_first_message");
    Settings {
        length: buffer_length(directives, lines, block),
        timeout: u64::from(message_timeout(directives, lines, block)),
        sub_timeout: u64::from(subscriber_timeout(directives, lines, block)),
        newest: has_argument(b"newest", first_message),
        max_name: name_limit(directives, lines, block),
        max_body: body_limit(directives, lines, block),
    }
}

fn is_way_of(way: &[u8], args: &[Word<'_>]) -> bool
    ensures { result ≡ is_way_of way.now args.now }
{
    args.is_empty() || has_word(args, way)
}

fn allows(way: &[u8], line: Option<&Line<'_, '_>>) -> bool
    ensures { result ≡ allows way.now (option_copied line.entry) }
{
    match line {
        None => false,
        Some(line) => is_way_of(way, line.directive().args.as_slice()),
    }
}

/// Whether subscribers may ask by a way at the location of this block.
fn subscribes(lines: &Lines<'_, '_>, block: usize, way: &[u8]) -> bool
    ensures { result ≡ subscribes lines.now block way.now }
{
    lines.has(block, b"nchan_pubsub") || allows(way, lines.first(Some(block), b"nchan_subscriber"))
}

fn push_plain(alloc: Global, parts: &mut List<IdPart>, text: &[u8]) -> Result<(), NoMemory>
    ensures { OnOk result (parts.new ≡ parts.old ++ plain_part text.now) }
{
    if text.is_empty() {
        return Ok(());
    }
    let text = List::of(text.to_vec(alloc)?);
    parts.push(IdPart::Plain(text))
}

fn name_len(text: &[u8]) -> usize
    ensures len { result ≡ prefix_len is_name_byte text.now }
    ensures within { result ≤ length text.now }
{
    for (i, byte) in text.iter().enumerate() {
        if !value::is_name_byte(*byte) {
            return i;
        }
    }
    text.len()
}

/// Adds what stands behind a `$`: `arg_`, a name, and plain text.
fn push_arg(alloc: Global, parts: &mut List<IdPart>, piece: &[u8]) -> Result<(), NoMemory>
    ensures { OnOk result (parts.new ≡ parts.old ++ arg_parts piece.now) }
{
    let rest = &piece[piece.len().min(4)..];
    let len = name_len(rest);
    let name = List::of(rest[..len].to_vec(alloc)?);
    parts.push(IdPart::Arg(name))?;
    push_plain(alloc, parts, &rest[len..])
}

fn pieces<'t>(alloc: Global, text: &'t [u8]) -> Result<Vec<&'t [u8]>, AllocError>
    ensures { IfOk result (λ v. map (λ p. p.now) v.items ≡ slice_split is_dollar text.now) }
{
    text.split(|b| *b == b'$').collect(alloc)
}

fn parts_of(alloc: Global, pieces: &[&[u8]]) -> Result<List<IdPart>, NoMemory>
    ensures { IfOk result (λ parts. parts ≡ parts_of (map (λ p. p.now) pieces.now)) }
{
    let mut parts = List::new(alloc);
    let [first, others @ ..] = pieces else {
        return Ok(parts);
    };
    push_plain(alloc, &mut parts, first)?;
    for piece in others {
        push_arg(alloc, &mut parts, piece)?;
    }
    Ok(parts)
}

/// A word of an id, cut at each `$`.
fn id_of(alloc: Global, word: &Word<'_>) -> Result<IdText, NoMemory>
    ensures { IfOk result (λ id. id ≡ id_of word.now) }
{
    let pieces = pieces(alloc, word.text.as_slice())?;
    let parts = parts_of(alloc, &pieces)?;
    Ok(IdText { parts })
}

fn each_id(alloc: Global, args: &[Word<'_>]) -> Result<List<IdText>, NoMemory>
    ensures { IfOk result (λ ids. ids ≡ map id_of args.now) }
{
    let mut ids = List::new(alloc);
    for word in args {
        ids.push(id_of(alloc, word)?)?;
    }
    Ok(ids)
}

fn ids_of(alloc: Global, line: Option<&Line<'_, '_>>) -> Result<List<IdText>, NoMemory>
    ensures { IfOk result (λ ids. ids ≡ ids_of (option_copied line.entry)) }
{
    match line {
        None => Ok(List::new(alloc)),
        Some(line) => each_id(alloc, line.directive().args.as_slice()),
    }
}

fn text_of(alloc: Global, word: Option<&Word<'_>>) -> Result<Bytes, NoMemory>
    ensures { IfOk result (λ text. text ≡ text_of (option_copied word.entry)) }
{
    match word {
        None => Ok(List::new(alloc)),
        Some(word) => Ok(List::of(word.text.as_slice().to_vec(alloc)?)),
    }
}

/// A location, by the number of its directive.
fn location_of(
    alloc: Global,
    directives: &[Directive<'_>],
    lines: &Lines<'_, '_>,
    i: usize,
    d: &Directive<'_>,
) -> Result<Location, NoMemory>
    requires { lines.now ≡ directives.now }
    ensures { IfOk result (λ l. l ≡ location_of lines.now i d.now) }
{
    let args = d.args.as_slice();
    let path = text_of(alloc, path_of(args))?;
    let ids = ids_of(alloc, lines.first(Some(i), b"nchan_channel_id"))?;
    let publisher = lines.has(i, b"nchan_publisher") || lines.has(i, b"nchan_pubsub");
    Ok(Location {
        exact: is_exact(args),
        path,
        publisher,
        longpoll: subscribes(lines, i, b"longpoll"),
        socket: subscribes(lines, i, b"websocket"),
        ids,
        settings: settings_of(directives, lines, Some(i)),
    })
}

fn locations(
    alloc: Global,
    directives: &[Directive<'_>],
    lines: &Lines<'_, '_>,
) -> Result<List<Location>, NoMemory>
    requires { lines.now ≡ directives.now }
    ensures { IfOk result (λ ls. ls ≡ locations_from lines.now 0 directives.now) }
{
    let mut locations = List::new(alloc);
    for (i, d) in directives.iter().enumerate() {
        if has_name(b"location", d) {
            locations.push(location_of(alloc, directives, lines, i, d)?)?;
        }
    }
    Ok(locations)
}

/// Adds the address of a `listen` line.
fn push_listened(
    alloc: Global,
    listen: &mut List<Listen>,
    d: &Directive<'_>,
) -> Result<(), NoMemory>
    ensures { OnOk result (listen.new ≡ listen.old ++ filter_map listened (d.now ∷ [])) }
{
    let [word, ..] = d.args.as_slice() else {
        return Ok(());
    };
    let Some(address) = value::address_of(word.text.as_slice()) else {
        return Ok(());
    };
    let host = List::of(address.host.to_vec(alloc)?);
    let port = address.port;
    listen.push(Listen { host, port })
}

fn listened(alloc: Global, directives: &[Directive<'_>]) -> Result<List<Listen>, NoMemory>
    ensures { IfOk result (λ ls. ls ≡ filter_map listened (filter (has_name (codes "listen")) directives.now)) }
{
    let mut listen = List::new(alloc);
    for d in directives {
        if has_name(b"listen", d) {
            push_listened(alloc, &mut listen, d)?;
        }
    }
    Ok(listen)
}

/// The addresses of the `listen` lines, or one where there are none.
fn addresses(alloc: Global, directives: &[Directive<'_>]) -> Result<List<Listen>, NoMemory>
    ensures { IfOk result (λ ls. ls ≡ addresses directives.now) }
{
    let mut listen = listened(alloc, directives)?;
    if listen.len() == 0 {
        let host = List::of(b"127.0.0.1".to_vec(alloc)?);
        listen.push(Listen { host, port: 8_080 })?;
    }
    Ok(listen)
}

fn block_named(directives: &[Directive<'_>], name: &[u8]) -> Option<usize>
    ensures { result ≡ block_named directives.now name.now }
{
    directives.iter().position(|d| has_name(name, d))
}

/// The server's block, or where there is none the http block.
fn base_block(directives: &[Directive<'_>]) -> Option<usize>
    ensures { result ≡ base_block directives.now }
{
    block_named(directives, b"server").or(block_named(directives, b"http"))
}

fn workers(lines: &Lines<'_, '_>) -> u8
    ensures is { result ≡ number_or 1 (line_in lines.now None (codes "worker_processes")) }
    ensures within { IsWorkers result }
{
    number_or(1, lines.first(None, b"worker_processes")) as u8
}

/// The slots of an http block.
fn slots(lines: &Lines<'_, '_>, http: Option<usize>) -> u32
    ensures is { result ≡ number_or 1024 (line_in lines.now http (codes "nchan_slots")) }
    ensures within { IsSlots result }
{
    number_or(1_024, lines.first(http, b"nchan_slots"))
}

/// The configuration of directives without faults.
pub fn config_of(
    alloc: Global,
    directives: &[Directive<'_>],
    lines: &Lines<'_, '_>,
) -> Result<Config, NoMemory>
    requires { lines.now ≡ directives.now }
    ensures { IfOk result (λ c. c ≡ config_of directives.now) }
{
    Ok(Config {
        workers: workers(lines),
        slots: slots(lines, block_named(directives, b"http")),
        listen: addresses(alloc, directives)?,
        base: settings_of(directives, lines, base_block(directives)),
        locations: locations(alloc, directives, lines)?,
    })
}

//! Where a subscriber begins, as its request says it.
ghost use Rattle.std.specs.Prelude.{◌≡◌, ◌<◌, ℕ, length, replicate, negsuc, IfOk, IfErr};
ghost use Rattle.std.specs.Option.{option_copied};
ghost use Rattle.nc_types.specs.Id.{IsTime};
ghost use Rattle.nc_types.specs.Settings.{SettingsAt};
ghost use Rattle.nc_route.specs.Begin.{asks_socket, without_weak, without_quotes, tags_in, given_by_date, poll_given, socket_given, given, configured, start_at, IsGivenStart};
ghost use Rattle.nc_route.specs.declared.start.StartRefusal.TheVariants as refusals;
ghost use Rattle.nc_route.specs.Steps.{IsNoStart, unread};

use crate::query::{argument, query_of};
use nc_accept::fields::{first_value, has_word};
use nc_ident::{IdRefusal, read_date, read_id, read_tags};
use nc_types::{Cursor, List, NoMemory, Request, Settings, Start};
use std::alloc::Global;

/// Why a request gives no start.
#[derive(Clone, Copy, Debug, PartialEq, Eq)]
pub(crate) enum StartRefusal {
    /// The date isn't one.
    NoDate,
    /// The tags or the id are malformed.
    BadTags,
    /// The tags or the id are those of another number of names.
    OtherTags,
    NoMemory,
}

impl From<NoMemory> for StartRefusal {
    ghost from_gives = { λ _ e. e ≡ refusals.NoMemory };

    fn from(_: NoMemory) -> Self {
        StartRefusal::NoMemory
    }
}

impl From<IdRefusal> for StartRefusal {
    ghost from_gives = { λ refusal e. e ≡ unread refusal };

    fn from(refusal: IdRefusal) -> Self {
        match refusal {
            IdRefusal::Malformed { .. } => StartRefusal::BadTags,
            IdRefusal::TagCount { .. } => StartRefusal::OtherTags,
            IdRefusal::NoMemory => StartRefusal::NoMemory,
        }
    }
}

/// Whether a request asks for a WebSocket.
pub(crate) fn asks_socket(request: &Request) -> bool
    ensures { result ≡ asks_socket request.now }
{
    has_word(b"Upgrade", b"websocket", request.fields.as_slice())
}

/// A text without `W/` at its front.
fn without_weak(text: &[u8]) -> &[u8]
    ensures { result.now ≡ without_weak text.now }
{
    if text.starts_with(b"W/") {
        &text[2..]
    } else {
        text
    }
}

/// A text without its quotation marks, where one stands at its front and another at its end.
fn without_quotes(text: &[u8]) -> &[u8]
    ensures { result.now ≡ without_quotes text.now }
{
    if !text.starts_with(b"\"") {
        return text;
    }
    let rest = &text[1..];
    if rest.ends_with(b"\"") {
        &rest[..rest.len() - 1]
    } else {
        text
    }
}

/// The tags in the value of an `If-None-Match` field.
fn tags_in(value: &[u8]) -> &[u8]
    ensures { result.now ≡ tags_in value.now }
{
    without_quotes(without_weak(value))
}

/// Where a subscriber begins that gives nothing.
fn configured(settings: &Settings) -> Start
    ensures { result ≡ configured settings.now }
{
    if settings.newest {
        Start::Newest
    } else {
        Start::Oldest
    }
}

/// The start of a time, with no message of that second for each of `n` names.
fn blank(alloc: Global, time: u64, n: usize) -> Result<Start, NoMemory>
    requires time { IsTime time }
    requires some { 0 < n }
    ensures { IfOk result (λ start. start ≡ start_at time (replicate n (negsuc 0))) }
{
    let tags = List::of(vec![in alloc; -1i32; n]?);
    Ok(Start::Given(Cursor { time, tags }))
}

/// The start of a date, and of the value with the tags, if there is one, of `n` names.
fn dated(alloc: Global, n: usize, date: &[u8], tags: Option<&[u8]>) -> Result<Start, StartRefusal>
    requires { 0 < n }
    ensures ok { (settings : SettingsAt) → IfOk result (λ start. IsGivenStart settings n (given_by_date date.now (option_copied tags.entry)) start) }
    ensures err { IfErr result (λ refusal. IsNoStart n (given_by_date date.now (option_copied tags.entry)) refusal) }
{
    let Some(time) = read_date(date) else {
        return Err(StartRefusal::NoDate);
    };
    match tags {
        None => Ok(blank(alloc, time, n)?),
        Some(value) => Ok(Start::Given(read_tags(alloc, time, tags_in(value), n)?)),
    }
}

/// The start of a long poll of `n` names.
fn poll_start(
    alloc: Global,
    settings: &Settings,
    n: usize,
    request: &Request,
) -> Result<Start, StartRefusal>
    requires { 0 < n }
    ensures ok { IfOk result (λ start. IsGivenStart settings.now n (poll_given request.now) start) }
    ensures err { IfErr result (λ refusal. IsNoStart n (poll_given request.now) refusal) }
{
    let fields = request.fields.as_slice();
    let Some(date) = first_value(b"If-Modified-Since", fields) else {
        return Ok(configured(settings));
    };
    dated(alloc, n, date, first_value(b"If-None-Match", fields))
}

/// The start of a WebSocket of `n` names.
fn socket_start(
    alloc: Global,
    settings: &Settings,
    n: usize,
    request: &Request,
) -> Result<Start, StartRefusal>
    ensures ok { IfOk result (λ start. IsGivenStart settings.now n (socket_given request.now) start) }
    ensures err { IfErr result (λ refusal. IsNoStart n (socket_given request.now) refusal) }
{
    let id = argument(b"last_event_id", query_of(&request.query));
    if id.is_empty() {
        return Ok(configured(settings));
    }
    Ok(Start::Given(read_id(alloc, id, n)?))
}

/// Where a subscriber of `n` names begins, or why its request gives no start.
pub(crate) fn start(
    alloc: Global,
    settings: &Settings,
    n: usize,
    request: &Request,
) -> Result<Start, StartRefusal>
    requires { 0 < n }
    ensures ok { IfOk result (λ start. IsGivenStart settings.now n (given request.now) start) }
    ensures err { IfErr result (λ refusal. IsNoStart n (given request.now) refusal) }
{
    if asks_socket(request) {
        socket_start(alloc, settings, n, request)
    } else {
        poll_start(alloc, settings, n, request)
    }
}

//! The routing rules, in their order.
ghost use Rattle.std.specs.Prelude.{◌≡◌, true, false, length, nat_lt, Some, IfOk, IfErr};
ghost use Rattle.std.specs.Option.{option_copied};
ghost use Rattle.nc_route.specs.declared.decision.Decision.TheVariants as decisions;
ghost use Rattle.nc_route.specs.declared.kind.Kind.TheVariants as kinds;
ghost use Rattle.nc_multi.specs.Names.{IsListOf, IsRefused};
ghost use Rattle.nc_route.specs.Begin.{asks_socket};
ghost use Rattle.nc_route.specs.Query.{ids_of};
ghost use Rattle.nc_route.specs.Rules.{Decides, location_rules, list_rules, subscription_rules, names_of, kind_of, content_type, refused, KeepsEarly};
ghost use Rattle.nc_types.specs.declared.request.Allow.TheVariants as allows;
ghost use Rattle.nc_route.specs.Steps.{DecidesAt, KeepsBodyAndMethod, only_name, for_one, Opens, IsStartRefusal, IsIdRefusal};

use crate::decision::Decision;
use crate::kind::{Kind, allowed_at, has_role, kind_of};
use crate::place::location_of;
use crate::query::ids_of;
use crate::reason::Reason;
use crate::start::{StartRefusal, asks_socket, start};
use nc_accept::fields::first_value;
use nc_accept::{HandRefusal, Opening, judge};
use nc_multi::{ListRefusal, list_of};
use nc_types::text::begins_slash;
use nc_types::{
    Allow, Bytes, ChanList, ChanName, Config, List, Location, NoMemory, Request, Settings,
};
use std::alloc::Global;

/// How many names a list may have.
const MOST_NAMES: usize = 7;

/// The refusal by a rule that names no methods.
fn refuse(reason: Reason) -> Decision
    ensures { result ≡ refused reason allows.Nothing }
{
    reason.refusal(Allow::Nothing)
}

/// The refusal of channel ids that make no list.
fn refuse_ids(refusal: ListRefusal) -> Result<Decision, NoMemory>
    ensures { IfOk result (IsIdRefusal refusal) }
{
    match refusal {
        ListRefusal::Empty { .. } => Ok(refuse(Reason::EmptyId)),
        ListRefusal::TooLong { .. } => Ok(refuse(Reason::LongId)),
        ListRefusal::TooMany { .. } => Ok(refuse(Reason::ManyNames)),
        ListRefusal::NoMemory => Err(NoMemory),
    }
}

/// The refusal of a request that gives no start.
fn refuse_start(refusal: StartRefusal) -> Result<Decision, NoMemory>
    ensures { IfOk result (IsStartRefusal refusal) }
{
    match refusal {
        StartRefusal::NoDate => Ok(refuse(Reason::NoDate)),
        StartRefusal::BadTags => Ok(refuse(Reason::BadTags)),
        StartRefusal::OtherTags => Ok(refuse(Reason::OtherTags)),
        StartRefusal::NoMemory => Err(NoMemory),
    }
}

/// The name of a list that has no other.
fn only_name(list: ChanList) -> Option<ChanName>
    ensures { result ≡ only_name list }
{
    let mut names = list.names.into_vec();
    if names.len() > 1 {
        return None;
    }
    names.pop()
}

/// The value of a request's first `Content-Type`.
fn content_type(alloc: Global, request: &Request) -> Result<Option<Bytes>, NoMemory>
    ensures { IfOk result (λ found. found ≡ content_type request.now) }
{
    match first_value(b"Content-Type", request.fields.as_slice()) {
        None => Ok(None),
        Some(value) => Ok(Some(List::of(Vec::from_slice(alloc, value)?))),
    }
}

fn publish(
    alloc: Global,
    settings: &Settings,
    request: &Request,
    list: ChanList,
) -> Result<Decision, NoMemory>
    ensures { IfOk result (λ d. d ≡ for_one (λ chan. decisions.Publish chan settings.now (content_type request.now) request.now.body) (only_name list)) }
{
    let Some(chan) = only_name(list) else {
        return Ok(refuse(Reason::SeveralNames));
    };
    Ok(Decision::Publish {
        chan,
        settings: *settings,
        content_type: content_type(alloc, request)?,
        body: request.body.copied()?,
    })
}

fn inform(list: ChanList) -> Decision
    ensures { result ≡ for_one decisions.Inform (only_name list) }
{
    match only_name(list) {
        Some(chan) => Decision::Inform { chan },
        None => refuse(Reason::SeveralNames),
    }
}

fn delete(list: ChanList) -> Decision
    ensures { result ≡ for_one decisions.Delete (only_name list) }
{
    match only_name(list) {
        Some(chan) => Decision::Delete { chan },
        None => refuse(Reason::SeveralNames),
    }
}

/// The opening that a request asks for, or None where it asks for none.
fn opening(alloc: Global, request: &Request) -> Result<Option<Opening>, NoMemory>
    ensures { IfOk result (λ opening. Opens request.now opening) }
{
    match judge(alloc, request) {
        Ok(opening) => Ok(Some(opening)),
        Err(HandRefusal::Connection | HandRefusal::Version | HandRefusal::Key) => Ok(None),
        Err(HandRefusal::NoMemory) => Err(NoMemory),
    }
}

/// What is decided of a subscription by a WebSocket.
fn open(
    alloc: Global,
    location: &Location,
    request: &Request,
    list: ChanList,
) -> Result<Decision, NoMemory>
    requires kind { kind_of location.now request.now.method ≡ Some kinds.Subscribe }
    requires way { asks_socket request.now ≡ true }
    requires list { list ≡ names_of location.now request.now }
    ensures { IfOk result (λ d. DecidesAt subscription_rules location.now request.now d) }
{
    if !location.socket {
        return Ok(refuse(Reason::NoSocket));
    }
    let Some(opening) = opening(alloc, request)? else {
        return Ok(refuse(Reason::BadOpening));
    };
    let settings = location.settings;
    match start(alloc, &settings, list.names.len(), request) {
        Ok(start) => Ok(Decision::Socket {
            list,
            start,
            settings,
            opening,
        }),
        Err(refusal) => refuse_start(refusal),
    }
}

/// What is decided of a subscription by a long poll.
fn poll(
    alloc: Global,
    location: &Location,
    request: &Request,
    list: ChanList,
) -> Result<Decision, NoMemory>
    requires kind { kind_of location.now request.now.method ≡ Some kinds.Subscribe }
    requires way { asks_socket request.now ≡ false }
    requires list { list ≡ names_of location.now request.now }
    ensures { IfOk result (λ d. DecidesAt subscription_rules location.now request.now d) }
{
    if !location.longpoll {
        return Ok(refuse(Reason::NoLongPoll));
    }
    let settings = location.settings;
    match start(alloc, &settings, list.names.len(), request) {
        Ok(start) => Ok(Decision::LongPoll {
            list,
            start,
            settings,
        }),
        Err(refusal) => refuse_start(refusal),
    }
}

/// What is decided of a subscription.
fn subscribe(
    alloc: Global,
    location: &Location,
    request: &Request,
    list: ChanList,
) -> Result<Decision, NoMemory>
    requires kind { kind_of location.now request.now.method ≡ Some kinds.Subscribe }
    requires list { list ≡ names_of location.now request.now }
    ensures { IfOk result (λ d. DecidesAt subscription_rules location.now request.now d) }
{
    if asks_socket(request) {
        open(alloc, location, request, list)
    } else {
        poll(alloc, location, request, list)
    }
}

/// What is decided of a request that has a list of channels.
fn with_list(
    alloc: Global,
    location: &Location,
    request: &Request,
    kind: Kind,
    list: ChanList,
) -> Result<Decision, NoMemory>
    requires kind { kind_of location.now request.now.method ≡ Some kind }
    requires list { IsListOf (ids_of location.now request.now) location.now.settings.max_name 7 list }
    ensures { IfOk result (λ d. DecidesAt list_rules location.now request.now d) }
{
    match kind {
        Kind::Publish => publish(alloc, &location.settings, request, list),
        Kind::Inform => Ok(inform(list)),
        Kind::Delete => Ok(delete(list)),
        Kind::Subscribe => subscribe(alloc, location, request, list),
    }
}

/// Whether a body is longer than it may be.
fn is_long(settings: &Settings, body: &Bytes) -> bool
    ensures { result ≡ nat_lt settings.now.max_body (length body.now) }
{
    body.len() > settings.max_body as usize
}

/// The list of some channel ids.
fn channels(alloc: Global, settings: &Settings, ids: &[Bytes]) -> Result<ChanList, ListRefusal>
    ensures ok { IfOk result (λ list. IsListOf ids.now settings.now.max_name 7 list) }
    ensures err { IfErr result (λ refusal. IsRefused ids.now settings.now.max_name 7 refusal) }
{
    list_of(alloc, ids, settings.max_name, MOST_NAMES)
}

/// What is decided of a request at its location.
fn at_location(alloc: Global, location: &Location, request: &Request) -> Result<Decision, NoMemory>
    ensures decided { IfOk result (λ d. DecidesAt location_rules location.now request.now d) }
    ensures wanting { IfErr result (λ _. KeepsBodyAndMethod location.now request.now) }
{
    if is_long(&location.settings, &request.body) {
        return Ok(refuse(Reason::LongBody));
    }
    let Some(kind) = kind_of(location, request.method.as_slice()) else {
        return Ok(Reason::OtherMethod.refusal(allowed_at(location)));
    };
    let ids = ids_of(alloc, location, request)?;
    match channels(alloc, &location.settings, ids.as_slice()) {
        Ok(list) => with_list(alloc, location, request, kind, list),
        Err(refusal) => refuse_ids(refusal),
    }
}

/// What a request asks for by a configuration, or its refusal by the first of the routing rules that it breaks.
///
/// docs/ROUTES.md has the rules. `NoMemory` comes only where there is no memory for the channel ids, the start, the
/// opening or the message; a request that breaks one of the rules 1 to 4 is refused by it.
pub fn rule(alloc: Global, conf: &Config, request: &Request) -> Result<Decision, NoMemory>
    ensures decided { IfOk result (λ decision. Decides conf.now request.now decision) }
    ensures wanting { IfErr result (λ _. KeepsEarly conf.now request.now) }
{
    let path = request.path.as_slice();
    if !begins_slash(path) {
        return Ok(refuse(Reason::NoSlash));
    }
    let Some(location) = location_of(path, conf.locations.as_slice()) else {
        return Ok(refuse(Reason::NoPlace));
    };
    if !has_role(location) {
        return Ok(refuse(Reason::NoPlace));
    }
    at_location(alloc, location, request)
}

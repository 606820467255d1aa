//! The head of a request, by the grammar of httparse in its default configuration.
ghost use Rattle.std.specs.Prelude.{◌≡◌, ℕ, ◌≤◌, [], length, map, take, All, IfSome, IfNone, IfOk, IfErr};
ghost use Rattle.std.specs.List.{prefix_len};
ghost use Rattle.httparse.specs.Grammar.{RequestHead};
ghost use Rattle.httparse.specs.Spans.{IsRequestAt, IsRequestWithin, IsHeaderWithin};
ghost use Rattle.nc_http_head.specs.Heads.{IsHead, request_of, query_of, path_len, AreOneLine};
ghost use Rattle.nc_http_head.specs.Covered.{field_at};

use httparse::Status;
use httparse::spans::{EMPTY_HEADER_SPAN, HeaderSpan, RequestSpans, parse_request};
use nc_types::{Bytes, Field, List, NoMemory, Request};
use std::alloc::Global;

/// How many fields a head may have.
const FIELDS: usize = 64;

/// Where the parts of the head are that the whole text is. None exactly where it is no head with at most 64 fields.
fn whole_head(text: &[u8], spans: &mut [HeaderSpan; FIELDS]) -> Option<RequestSpans>
    ensures some { IfSome result (λ r. (h : RequestHead) × IsHead text.now h × IsRequestAt text.now spans.new r h) }
    ensures none { IfNone result ((h : RequestHead) → ¬ (IsHead text.now h)) }
    ensures within { IfSome result (λ r. IsRequestWithin text.now spans.new r) }
{
    match parse_request(text, spans) {
        Ok(Status::Complete(head)) => {
            if head.len == text.len() {
                Some(head)
            } else {
                None
            }
        }
        _ => None,
    }
}

fn copy_of(alloc: Global, bytes: &[u8]) -> Result<Bytes, NoMemory>
    ensures { IfOk result (λ copy. copy ≡ bytes.now) }
{
    Ok(List::of(Vec::from_slice(alloc, bytes)?))
}

/// The fields that the spans cover.
fn fields_at(alloc: Global, text: &[u8], spans: &[HeaderSpan]) -> Result<List<Field>, NoMemory>
    requires { All (IsHeaderWithin (length text.now)) spans.now }
    ensures { IfOk result (λ fields. fields ≡ map (field_at text.now) spans.now) }
{
    let mut fields = Vec::with_capacity(alloc, spans.len())?;
    for span in spans {
        fields.push(Field {
            name: copy_of(alloc, span.name.of(text))?,
            value: copy_of(alloc, span.value.of(text))?,
        })?;
    }
    Ok(List::of(fields))
}

/// How many bytes stand before the first `?`.
fn path_len(target: &[u8]) -> usize
    ensures count { result ≡ path_len target.now }
    ensures within { result ≤ length target.now }
{
    for (i, byte) in target.iter().enumerate() {
        if *byte == b'?' {
            return i;
        }
    }
    target.len()
}

/// What stands behind the first `?`, if there is one.
fn query_of(alloc: Global, target: &[u8]) -> Result<Option<Bytes>, NoMemory>
    ensures { IfOk result (λ query. query ≡ query_of target.now) }
{
    let path = path_len(target);
    if path == target.len() {
        Ok(None)
    } else {
        Ok(Some(copy_of(alloc, &target[path + 1..])?))
    }
}

/// The request whose parts are there.
fn request_at(
    alloc: Global,
    text: &[u8],
    spans: &[HeaderSpan],
    head: &RequestSpans,
) -> Result<Request, NoMemory>
    requires { IsRequestWithin text.now spans.now head.now }
    ensures { IfOk result (λ q. (h : RequestHead) → IsRequestAt text.now spans.now head.now h → q ≡ request_of h) }
{
    let target = head.path.of(text);
    Ok(Request {
        method: copy_of(alloc, head.method.of(text))?,
        path: copy_of(alloc, &target[..path_len(target)])?,
        query: query_of(alloc, target)?,
        minor: head.version,
        fields: fields_at(alloc, text, &spans[..head.headers])?,
        body: List::new(alloc),
    })
}

/// The request without a body whose head the whole text is. None exactly where it is no head with at most 64 fields,
/// which takes no memory.
pub fn head_of(alloc: Global, text: &[u8]) -> Result<Option<Request>, NoMemory>
    ensures some { IfOk result (λ found. IfSome found (λ q. (h : RequestHead) × IsHead text.now h × (q ≡ request_of h))) }
    ensures lines { IfOk result (λ found. IfSome found (λ q. AreOneLine q.fields)) }
    ensures none { IfOk result (λ found. IfNone found ((h : RequestHead) → ¬ (IsHead text.now h))) }
    ensures wanting { IfErr result (λ e. (h : RequestHead) × IsHead text.now h) }
{
    let mut spans = [EMPTY_HEADER_SPAN; FIELDS];
    match whole_head(text, &mut spans) {
        Some(head) => Ok(Some(request_at(alloc, text, &spans, &head)?)),
        None => Ok(None),
    }
}

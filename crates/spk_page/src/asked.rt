//! What is asked for.
ghost use Rattle.std.specs.Prelude.{◌≡◌, Some, None, All, codes, length, map, if◌then◌else◌};
ghost use Rattle.std.specs.List.{list_any};
ghost use Rattle.std.specs.Str.Parse.{digits_value};
ghost use Rattle.httparse.specs.Grammar.{RequestHead};
ghost use Rattle.httparse.specs.Spans.{IsHeaderWithin, IsRequestAt, IsRequestWithin, header_bytes};
ghost use Rattle.http1.specs.Fields.{is_number};
ghost use Rattle.spk_page.specs.Asked.{asked_at, asked_by, asked_for, is_own, is_own_field, node_at};

use http1::text::eq_ignore_case;
use httparse::spans::{HeaderSpan, RequestSpans};

/// What is asked for.
#[derive(Clone, Copy, Debug, PartialEq, Eq)]
pub enum Asked {
    /// No whole head of a request has come yet.
    Nothing,
    /// `GET /`
    Page,
    /// `GET /view`
    View,
    /// `GET /view?node=` with the place of a node.
    Node(u64),
    /// `GET /events`
    Events,
    /// `GET /metrics`
    Metrics,
    /// `GET /text`
    Text,
    /// GET of something else.
    Elsewhere,
    /// GET by another name than 127.0.0.1 or localhost: a page of somebody else's asks.
    Foreign,
    /// Another method.
    Otherwise,
    /// What is no request, or too long, with its status (RFC 9110, section 15.5).
    NoRequest(u16),
}

/// The number that decimal digits say, if it has 64 bits.
fn number_in(digits: &[u8]) -> Option<u64>
    ensures { result ≡ (if is_number digits.now then Some (digits_value 10 digits.now) else None) }
{
    if digits.is_empty() {
        return None;
    }
    let mut n: u64 = 0;
    for b in digits {
        if !b.is_ascii_digit() {
            return None;
        }
        n = n.checked_mul(10)?.checked_add(u64::from(*b - b'0'))?;
    }
    Some(n)
}

/// What a node's target asks for.
fn node_at(target: &[u8]) -> Asked
    ensures { result ≡ node_at target.now }
{
    let front = b"/view?node=".as_slice();
    if !target.starts_with(front) {
        return Asked::Elsewhere;
    }
    match number_in(&target[front.len()..]) {
        Some(place) => Asked::Node(place),
        None => Asked::Elsewhere,
    }
}

/// What GET of a target asks for.
fn asked_at(target: &[u8]) -> Asked
    ensures { result ≡ asked_at target.now }
{
    if target == b"/".as_slice() {
        Asked::Page
    } else if target == b"/view".as_slice() {
        Asked::View
    } else if target == b"/events".as_slice() {
        Asked::Events
    } else if target == b"/metrics".as_slice() {
        Asked::Metrics
    } else if target == b"/text".as_slice() {
        Asked::Text
    } else {
        node_at(target)
    }
}

/// Whether a host is this machine by a name of its own, with or without a port.
fn is_own(host: &[u8]) -> bool
    ensures { result ≡ is_own host.now }
{
    host == b"127.0.0.1".as_slice()
        || host.starts_with(b"127.0.0.1:")
        || host == b"localhost".as_slice()
        || host.starts_with(b"localhost:")
}

/// Whether a field is a Host of this machine.
fn is_own_field(input: &[u8], span: HeaderSpan) -> bool
    requires { IsHeaderWithin (length input.now) span }
    ensures { result ≡ is_own_field (header_bytes input.now span) }
{
    eq_ignore_case(span.name.of(input), b"host") && is_own(span.value.of(input))
}

/// Whether one of the fields is.
fn has_own_host(input: &[u8], spans: &[HeaderSpan]) -> bool
    requires { All (IsHeaderWithin (length input.now)) spans.now }
    ensures { result ≡ list_any is_own_field (map (header_bytes input.now) spans.now) }
{
    let mut found = false;
    for span in spans {
        if is_own_field(input, *span) {
            found = true;
        }
    }
    found
}

/// What a request of this method and target asks for, by a host of its own or not.
fn asked_by(method: &[u8], target: &[u8], has_own_host: bool) -> Asked
    ensures { result ≡ asked_by method.now target.now has_own_host }
{
    if method != b"GET".as_slice() {
        Asked::Otherwise
    } else if !has_own_host {
        Asked::Foreign
    } else {
        asked_at(target)
    }
}

/// What a request with this head asks for.
pub(crate) fn asked_for(input: &[u8], spans: &[HeaderSpan], head: &RequestSpans) -> Asked
    requires { IsRequestWithin input.now spans.now head.now }
    ensures { (h : RequestHead) → IsRequestAt input.now spans.now head.now h
        → result ≡ asked_for h }
{
    let has_own_host = has_own_host(input, &spans[..head.headers]);
    asked_by(head.method.of(input), head.path.of(input), has_own_host)
}

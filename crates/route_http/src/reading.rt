//! The head of a request, read from the first bytes of a connection.
ghost use Rattle.std.specs.Prelude.{◌≡◌, ◌≤◌, length, take, None};
ghost use Rattle.route_http.specs.Ends.{end_of};
ghost use Rattle.route_http.specs.Heads.{IsJudged, IsHeadOf, unended, IsHeadWithin};
ghost use Rattle.route_http.specs.Parsed.{IsParsed};

use crate::ends::head_end_from;
use crate::fields::body_of;
use crate::heads::Head;
use crate::target::whole;
use httparse::Status;
use httparse::spans::{EMPTY_HEADER_SPAN, HeaderSpan, RequestSpans, parse_request};

/// The most bytes of a head.
const LONGEST: usize = 16_384;

/// What the first bytes of a connection come to.
pub fn head(bytes: &[u8]) -> Head
    ensures exact { IsHeadOf bytes.now result }
    ensures within { IsHeadWithin bytes.now result }
{
    head_from(bytes, 0)
}

/// What the first bytes of a connection come to, where no empty line ends within the first `from`
/// of them. So bytes that come piece by piece are looked at once: `from` is how many there were
/// when the answer was `More`.
pub fn head_from(bytes: &[u8], from: usize) -> Head
    requires fits { from ≤ length bytes.now }
    requires none { end_of (take from bytes.now) ≡ None }
    ensures exact { IsHeadOf bytes.now result }
    ensures within { IsHeadWithin bytes.now result }
{
    let front = &bytes[..bytes.len().min(LONGEST)];
    match head_end_from(front, from.min(LONGEST)) {
        Some(end) => judged(&bytes[..end]),
        None => unended(bytes.len()),
    }
}

/// What so many bytes without an empty line come to.
fn unended(long: usize) -> Head
    ensures exact { result ≡ unended long }
{
    if long < LONGEST {
        Head::More
    } else {
        Head::TooLong
    }
}

/// What the bytes of a head, up to its empty line, come to.
fn judged(head: &[u8]) -> Head
    requires few { length head.now ≤ LONGEST }
    ensures exact { IsJudged head.now result }
{
    let mut headers = [EMPTY_HEADER_SPAN; 64];
    match parse_request(head, &mut headers) {
        Ok(status) => match status {
            Status::Complete(parts) => served(head, &headers, &parts),
            Status::Partial => Head::Bad,
        },
        Err(_) => Head::Bad,
    }
}

/// What a head comes to that httparse reads at the front of the bytes.
fn served(head: &[u8], headers: &[HeaderSpan], parts: &RequestSpans) -> Head
    requires few { length head.now ≤ LONGEST }
    requires parsed { IsParsed head.now headers.now parts.now }
    ensures exact { IsJudged head.now result }
{
    if parts.len != head.len() {
        return Head::Bad;
    }
    match body_of(head, &headers[..parts.headers]) {
        Some(body) => whole(head, parts, body),
        None => Head::Bad,
    }
}

//! What a whole head tells, and where its path and its query stand.
ghost use Rattle.std.specs.Prelude.{◌≡◌, ◌≤◌, length};
ghost use Rattle.std.specs.List.{prefix_len, position_or_len};
ghost use Rattle.httparse.specs.Pieces.{is_newline};
ghost use Rattle.route_http.specs.Heads.{is_mark, path_at, query_at};
ghost use Rattle.route_http.specs.Parsed.{TellsRequest};

use crate::heads::{Head, Method};
use crate::span::Span;
use httparse::spans::RequestSpans;

/// What a head tells that is a request as a whole, with a body of this length.
pub(crate) fn whole(head: &[u8], parts: &RequestSpans, body: u64) -> Head
    requires few { length head.now ≤ 16384 }
    requires method { (parts.now.method.start ≤ parts.now.method.end) ×
        (parts.now.method.end ≤ length head.now) }
    requires path { (parts.now.path.start ≤ parts.now.path.end) ×
        (parts.now.path.end ≤ length head.now) }
    ensures exact { TellsRequest head.now parts.now body result }
{
    let name = parts.method.of(head);
    let target = parts.path.of(head);
    let start = breaks_len(head) + name.len() + 1;
    Head::Whole {
        length: head.len(),
        method: Method::of(name),
        path: path_at(start, target),
        query: query_at(start, target),
        body,
    }
}

/// How many bytes of empty lines stand in front of a head.
fn breaks_len(head: &[u8]) -> usize
    ensures exact { result ≡ prefix_len is_newline head.now }
    ensures fits { result ≤ length head.now }
{
    for (i, byte) in head.iter().enumerate() {
        if *byte != b'\r' && *byte != b'\n' {
            return i;
        }
    }
    head.len()
}

/// Where the path of a target stands that begins here.
#[tactic(auto, using(crate::proofs::HeadLemmas::path_long))]
fn path_at(start: usize, target: &[u8]) -> Span
    requires fits { start ≤ 40000 }
    requires few { length target.now ≤ 16384 }
    ensures exact { result ≡ path_at start target.now }
{
    Span {
        start,
        end: start + path_len(target),
    }
}

/// Where the query of a target stands that begins here.
#[tactic(auto, using(crate::proofs::HeadLemmas::query_long))]
fn query_at(start: usize, target: &[u8]) -> Span
    requires fits { start ≤ 40000 }
    requires few { length target.now ≤ 16384 }
    ensures exact { result ≡ query_at start target.now }
{
    Span {
        start: start + target.len().min(path_len(target) + 1),
        end: start + target.len(),
    }
}

/// How many bytes of a target stand before its first question mark.
fn path_len(target: &[u8]) -> usize
    ensures exact { result ≡ position_or_len is_mark target.now }
    ensures fits { result ≤ length target.now }
{
    for (i, byte) in target.iter().enumerate() {
        if *byte == b'?' {
            return i;
        }
    }
    target.len()
}

//! What is fixed for a session by its bytes and by the end of its peer.

ghost use Rattle.std.specs.Prelude.{◌≡◌, ◌≤◌, length};
ghost use Rattle.route_http.specs.Heads.{IsHeadOf, IsHeadWithin};
ghost use Rattle.session_answers.specs.Verdicts.{IsVerdict, IsVerdictIn, by_path, is_whole, of_body, of_query, of_upload};
ghost use Rattle.session_answers.specs.Verdicts.{unfinished, verdict_by};

use crate::refusal::Refusal;
use route_engine::Aim;
use route_http::{Head, Method, Span};

/// The most bytes that a body may have.
const MOST_BODY: u64 = 262_144;

/// What is fixed for a session.
#[derive(Clone, Copy)]
pub enum Verdict {
    /// Nothing yet: more bytes are wanted.
    Undecided,
    /// The peer ended before its first byte: there is no answer.
    NoByte,
    /// This answer.
    Refused(Refusal),
    /// A profile is uploaded; its text stands here.
    Upload(Span),
    /// This is asked for; its query stands here.
    Query(Aim, Span),
}

/// What is fixed by the head that bytes come to, and by whether the peer ended.
pub(crate) fn verdict_by(head: Head, bytes: &[u8], ended: bool) -> Verdict
    requires heads { IsHeadOf bytes.now head }
    ensures exact { IsVerdict bytes.now ended result }
    ensures within { IsVerdictIn bytes.now result }
{
    told_by(head, bytes, ended)
}

/// The same of a head whose places stand within the bytes.
fn told_by(head: Head, bytes: &[u8], ended: bool) -> Verdict
    requires within { IsHeadWithin bytes.now head }
    ensures exact { result ≡ verdict_by head bytes.now ended }
    ensures within { IsVerdictIn bytes.now result }
{
    match head {
        Head::TooLong => Verdict::Refused(Refusal::HeadTooLong),
        Head::Bad => Verdict::Refused(Refusal::BadRequest),
        Head::More => unfinished(ended, bytes),
        Head::Whole {
            length: long,
            method,
            path,
            query,
            body,
        } => {
            if ended && !is_whole(long, method, body, bytes) {
                Verdict::Refused(Refusal::BadRequest)
            } else {
                by_path(path.of(bytes), long, method, query, body, bytes)
            }
        }
    }
}

/// What is fixed where the head may still go on.
fn unfinished(ended: bool, bytes: &[u8]) -> Verdict
    ensures exact { result ≡ unfinished ended bytes.now }
{
    if !ended {
        Verdict::Undecided
    } else if bytes.is_empty() {
        Verdict::NoByte
    } else {
        Verdict::Refused(Refusal::BadRequest)
    }
}

/// Whether a request is whole: a POST has its body too.
fn is_whole(long: usize, method: Method, body: u64, bytes: &[u8]) -> bool
    requires fits { long ≤ length bytes.now }
    ensures exact { result ≡ is_whole long method body bytes.now }
{
    match method {
        Method::Post => body <= (bytes.len() - long) as u64,
        _ => true,
    }
}

/// What is fixed by the path.
fn by_path(
    path: &[u8],
    long: usize,
    method: Method,
    query: Span,
    body: u64,
    bytes: &[u8],
) -> Verdict
    requires fits { long ≤ length bytes.now }
    ensures exact { result ≡ by_path path.now long method query body bytes.now }
{
    if path == b"/brouter".as_slice() {
        of_query(Aim::Track, method, query, body)
    } else if path == b"/brouter/table".as_slice() {
        of_query(Aim::Table, method, query, body)
    } else if path == b"/brouter/certificate".as_slice() {
        of_query(Aim::Certificate, method, query, body)
    } else if path == b"/brouter/within".as_slice() {
        of_query(Aim::Within, method, query, body)
    } else if path == b"/brouter/profile".as_slice() {
        of_upload(long, method, body, bytes)
    } else {
        Verdict::Refused(Refusal::UnknownPath)
    }
}

/// What a request by a query comes to, by what it is asked for.
fn of_query(aim: Aim, method: Method, query: Span, body: u64) -> Verdict
    ensures exact { result ≡ of_query aim method query body }
{
    match method {
        Method::Get => {
            if body > MOST_BODY {
                Verdict::Refused(Refusal::BodyTooLong)
            } else {
                Verdict::Query(aim, query)
            }
        }
        _ => Verdict::Refused(Refusal::MethodNotAllowed),
    }
}

/// What an upload comes to.
fn of_upload(long: usize, method: Method, body: u64, bytes: &[u8]) -> Verdict
    requires fits { long ≤ length bytes.now }
    ensures exact { result ≡ of_upload long method body bytes.now }
{
    match method {
        Method::Post => of_body(long, body, bytes),
        _ => Verdict::Refused(Refusal::MethodNotAllowed),
    }
}

/// What an upload comes to whose body has so many bytes.
fn of_body(long: usize, body: u64, bytes: &[u8]) -> Verdict
    requires fits { long ≤ length bytes.now }
    ensures exact { result ≡ of_body long body bytes.now }
{
    if body > MOST_BODY {
        return Verdict::Refused(Refusal::BodyTooLong);
    }
    let body = body as usize;
    if body <= bytes.len() - long {
        Verdict::Upload(Span {
            start: long,
            end: long + body,
        })
    } else {
        Verdict::Undecided
    }
}

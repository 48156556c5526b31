//! Cases on heads and frames.
ghost use Rattle.std.specs.Prelude.{IsTrue, IfSome};
ghost use Rattle.route_http.specs.Frames.{is_status};

use case_inputs::Case;
use item_list::{append_bytes, append_named, append_number, bytes_of};
use route_http::{Head, Kind, Method, Span, frame, head, head_from};
use std::alloc::{AllocError, Global};

/// The answer to a case of a head.
pub(crate) fn of_head(alloc: Global, case: &Case) -> Result<Vec<u8>, AllocError> {
    let mut out = Vec::new(alloc);
    append_head(&mut out, &head(case.word(1)))?;
    Ok(out)
}

/// The answer to a case of a head that comes byte by byte, behind how many bytes had come.
pub(crate) fn of_fed(alloc: Global, case: &Case) -> Result<Vec<u8>, AllocError> {
    let mut out = Vec::new(alloc);
    let (came, answer) = fed(case.word(1));
    append_number(&mut out, came as u64)?;
    append_bytes(&mut out, b" ")?;
    append_head(&mut out, &answer)?;
    Ok(out)
}

/// How many bytes had come when the answer was no longer that more are wanted, and the answer.
fn fed(bytes: &[u8]) -> (usize, Head) {
    let mut came = 0;
    'bytes: while came < bytes.len() {
        let answer = head_from(&bytes[..came + 1], came);
        came += 1;
        match answer {
            Head::More => {}
            _ => return (came, answer),
        }
    }
    (came, Head::More)
}

/// What is told of a head, in one line.
fn append_head(out: &mut Vec<u8>, answer: &Head) -> Result<(), AllocError> {
    match *answer {
        Head::Whole {
            length,
            method,
            path,
            query,
            body,
        } => {
            append_named(out, b"whole ", length as u64)?;
            append_bytes(out, method_word(method))?;
            append_span(out, path)?;
            append_span(out, query)?;
            append_number(out, body)
        }
        Head::More => append_bytes(out, b"more"),
        Head::Bad => append_bytes(out, b"bad"),
        Head::TooLong => append_bytes(out, b"too long"),
    }
}

/// A span by its places, and a space.
fn append_span(out: &mut Vec<u8>, span: Span) -> Result<(), AllocError> {
    append_number(out, span.start as u64)?;
    append_named(out, b"-", span.end as u64)?;
    append_bytes(out, b" ")
}

/// The word of a method.
fn method_word(method: Method) -> &'static [u8] {
    match method {
        Method::Get => b" get ",
        Method::Post => b" post ",
        Method::Other => b" other ",
    }
}

/// The answer to a case of a frame.
pub(crate) fn of_frame(alloc: Global, case: &Case) -> Result<Vec<u8>, AllocError> {
    match status_of(case.count(1)) {
        Some(status) => frame(alloc, status, kind_of(case.word(2)), case.word(3)),
        None => bytes_of(alloc, b"no status"),
    }
}

/// A status that replies have.
fn status_of(number: u64) -> Option<u16>
    ensures known { IfSome result (λ status. IsTrue (is_status status)) }
{
    match number {
        200 => Some(200),
        400 => Some(400),
        404 => Some(404),
        405 => Some(405),
        413 => Some(413),
        422 => Some(422),
        500 => Some(500),
        503 => Some(503),
        _ => None,
    }
}

/// The kind of a word.
fn kind_of(word: &[u8]) -> Kind {
    if word == b"json".as_slice() {
        Kind::Json
    } else if word == b"csv".as_slice() {
        Kind::Csv
    } else {
        Kind::Plain
    }
}

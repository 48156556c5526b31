//! The frame of a reply: all bytes that a connection gets.
ghost use Rattle.std.specs.Prelude.{◌≡◌, ◌++◌, length, IsTrue, IfOk, OnOk};
ghost use Rattle.route_http.specs.Frames.{is_status, reason_of, type_of, status_line, type_line, length_line, frame_of};

use crate::kind::Kind;
use item_list::{append_bytes, append_number};
use std::alloc::{AllocError, Global};

/// The most bytes of a frame before its body.
const HEAD_ROOM: usize = 192;

/// The frame of a reply, in one list that has its room from the start.
#[tactic(auto, unfolding(crate::specs::Frames::frame_of))]
pub fn frame(alloc: Global, status: u16, kind: Kind, body: &[u8]) -> Result<Vec<u8>, AllocError>
    requires known { IsTrue (is_status status) }
    ensures exact { IfOk result (λ frame. frame.items ≡ frame_of status kind body.now) }
{
    let mut frame = Vec::with_capacity(alloc, HEAD_ROOM + body.len())?;
    append_status(&mut frame, status)?;
    append_type(&mut frame, kind)?;
    append_length(&mut frame, body.len())?;
    append_bytes(&mut frame, b"Connection: close\r\n")?;
    append_bytes(&mut frame, b"Access-Control-Allow-Origin: *\r\n\r\n")?;
    append_bytes(&mut frame, body)?;
    Ok(frame)
}

/// Appends the line of the status.
#[tactic(auto, unfolding(crate::specs::Frames::status_line))]
fn append_status(frame: &mut Vec<u8>, status: u16) -> Result<(), AllocError>
    ensures exact { OnOk result (frame.new.items ≡ frame.old.items ++ status_line status) }
{
    append_bytes(frame, b"HTTP/1.1 ")?;
    append_number(frame, u64::from(status))?;
    append_bytes(frame, b" ")?;
    append_bytes(frame, reason_of(status))?;
    append_bytes(frame, b"\r\n")
}

/// Appends the line of the body's type.
#[tactic(auto, unfolding(crate::specs::Frames::type_line))]
fn append_type(frame: &mut Vec<u8>, kind: Kind) -> Result<(), AllocError>
    ensures exact { OnOk result (frame.new.items ≡ frame.old.items ++ type_line kind) }
{
    append_bytes(frame, b"Content-Type: ")?;
    append_bytes(frame, type_of(kind))?;
    append_bytes(frame, b"; charset=utf-8\r\n")?;
    Ok(())
}

/// Appends the line of the body's length.
#[tactic(auto, unfolding(crate::specs::Frames::length_line))]
fn append_length(frame: &mut Vec<u8>, long: usize) -> Result<(), AllocError>
    ensures exact { OnOk result (frame.new.items ≡ frame.old.items ++ length_line long) }
{
    append_bytes(frame, b"Content-Length: ")?;
    append_number(frame, long as u64)?;
    append_bytes(frame, b"\r\n")
}

/// The reason of a status.
#[tactic(auto, unfolding(crate::specs::Frames::reason_of))]
fn reason_of(status: u16) -> &'static [u8]
    ensures exact { result.now ≡ reason_of status }
{
    match status {
        200 => b"OK",
        400 => b"Bad Request",
        404 => b"Not Found",
        405 => b"Method Not Allowed",
        413 => b"Content Too Large",
        422 => b"Unprocessable Content",
        500 => b"Internal Server Error",
        _ => b"Service Unavailable",
    }
}

/// The media type of a kind.
fn type_of(kind: Kind) -> &'static [u8]
    ensures exact { result.now ≡ type_of kind }
{
    match kind {
        Kind::Json => b"application/json",
        Kind::Csv => b"text/csv",
        Kind::Plain => b"text/plain",
    }
}

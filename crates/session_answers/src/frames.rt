//! The frames of lines.

ghost use Rattle.std.specs.Prelude.{◌≡◌, IfOk, IsTrue};
ghost use Rattle.route_http.specs.Frames.{is_status};
ghost use Rattle.session_answers.specs.Frames.{line_frame, refusal_frame};

use crate::refusal::Refusal;
use item_list::{append_bytes, bytes_of};
use route_http::{Kind, frame};
use std::alloc::{AllocError, Global};

/// The frame of a line, which gets its end here.
pub fn line_frame(alloc: Global, status: u16, line: Vec<u8>) -> Result<Vec<u8>, AllocError>
    requires known { IsTrue (is_status status) }
    ensures exact { IfOk result (λ frame. frame.items ≡ line_frame status line.items) }
{
    let mut body = line;
    append_bytes(&mut body, b"\n")?;
    frame(alloc, status, Kind::Plain, body.as_slice())
}

/// The frame of a refusal.
#[tactic(auto, unfolding(crate::specs::Frames::refusal_frame))]
pub fn refusal_frame(alloc: Global, refusal: Refusal) -> Result<Vec<u8>, AllocError>
    ensures exact { IfOk result (λ frame. frame.items ≡ refusal_frame refusal) }
{
    let line = bytes_of(alloc, refusal.line())?;
    line_frame(alloc, refusal.status(), line)
}

//! What is sent, and what is done.

ghost use Rattle.std.specs.Prelude.{◌≡◌, ◌+◌, ◌≤◌, ℕ, List, length, take, MatchOption, true, false};
ghost use Rattle.hall.specs.Parts.{FitsUnsent, frame_in, phase_in, sent_in};
ghost use Rattle.hall.specs.Sends.{IsDone, IsPiece, most_piece};
ghost use Rattle.hall.specs.State.{Answered};

use crate::peer::{Frame, Phase};
use crate::ready_frames::ReadyFrames;
use session_answers::{Refusal, refusal_frame};
use std::alloc::{AllocError, Global};

/// The most bytes of a piece.
const MOST_PIECE: usize = 65536;

impl ReadyFrames {
    /// Both frames.
    pub fn new(alloc: Global) -> Result<ReadyFrames, AllocError> {
        let memory = refusal_frame(alloc, Refusal::OutOfMemory)?;
        let full = refusal_frame(alloc, Refusal::SessionsFull)?;
        Ok(ReadyFrames { memory, full })
    }

    /// The bytes of a frame.
    fn bytes<'a>(&'a self, frame: &'a Frame) -> &'a [u8]
        ensures value { result.now ≡ frame_in frame.now }
    {
        match frame {
            Frame::Memory => self.memory.as_slice(),
            Frame::Full => self.full.as_slice(),
            Frame::Own(bytes) => bytes.as_slice(),
        }
    }

    /// The next piece of a connection, where it has one.
    pub(crate) fn piece<'a>(&'a self, phase: &'a Phase) -> Option<&'a [u8]>
        ensures value { MatchOption result ((piece : List ℕ) → IsPiece (phase_in phase.now) piece →
            ⊥) (λ p. IsPiece (phase_in phase.now) p.now) }
    {
        match phase {
            Phase::Answered(frame, sent) => unsent(self.bytes(frame), *sent),
            _ => None,
        }
    }

    /// Whether nothing is left to be done for a connection.
    pub(crate) fn is_done(&self, phase: &Phase) -> bool
        ensures done { result ≡ true → IsDone (phase_in phase.now) }
        ensures stays { result ≡ false → IsDone (phase_in phase.now) → ⊥ }
    {
        match phase {
            Phase::Answered(frame, sent) => *sent == self.bytes(frame).len(),
            Phase::Silent => true,
            _ => false,
        }
    }

    /// Counts more bytes of a frame as sent, no more than it has.
    pub(crate) fn send_more(&self, phase: &mut Phase, n: usize)
        requires fits { FitsUnsent (phase_in phase.old) n }
        ensures value { phase.new ≡ sent_in phase.old n }
    {
        let so_far = match &*phase {
            Phase::Answered(frame, sent) => self.sent_after(frame, *sent, n),
            _ => return,
        };
        if let Phase::Answered(_, sent) = phase {
            *sent = so_far;
        }
    }

    /// How many bytes of a frame are sent after so many more, no more than it has.
    fn sent_after(&self, frame: &Frame, sent: usize, n: usize) -> usize
        requires fits { sent + n ≤ length (frame_in frame.now) }
        ensures value { result ≡ sent + n }
    {
        sent + n.min(self.bytes(frame).len() - sent)
    }
}

/// The first bytes of a frame that aren't sent, where there are some.
fn unsent(frame: &[u8], sent: usize) -> Option<&[u8]>
    ensures value { MatchOption result ((piece : List ℕ) → IsPiece (Answered frame.now sent) piece →
        ⊥) (λ p. IsPiece (Answered frame.now sent) p.now) }
{
    if sent < frame.len() {
        Some(first(&frame[sent..]))
    } else {
        None
    }
}

/// As many first bytes as a piece may have.
fn first(rest: &[u8]) -> &[u8]
    ensures value { result.now ≡ take most_piece rest.now }
{
    if MOST_PIECE < rest.len() {
        &rest[..MOST_PIECE]
    } else {
        rest
    }
}

//! What is kept of a session while it is read.

ghost use Rattle.route_http.specs.Heads.{IsHeadOf};
ghost use Rattle.session_answers.specs.HeadProps.{heads-prop};

use crate::verdict::{Verdict, verdict_by};
use route_http::{Head, Span, head_from};
use std::alloc::{AllocError, Global};

/// The bytes of a session that came so far. Each is looked at once, and a head is read once, where
/// it ends.
pub struct Received {
    pub(crate) bytes: Vec<u8>,
    /// What the bytes come to, as far as their head goes.
    pub(crate) head: Head,
    ghost heads: { IsHeadOf bytes.items head } by { heads-prop bytes.items head },
}

impl Drop for Received {
    fn drop(self) {
        let Received { bytes: _, head: _ } = self;
    }
}

impl Received {
    ghost use Rattle.std.specs.Prelude.{◌≡◌, ◌≤◌, ◌++◌, [], true, false, length, IfOk, OnErr, OnOk};
    ghost use Rattle.session_answers.specs.Received.{received_of};
    ghost use Rattle.session_answers.specs.Verdicts.{IsVerdict, IsVerdictIn, part};

    /// No byte came yet. It takes no memory.
    pub fn new(alloc: Global) -> Received
        ensures value { received_of result ≡ [] }
    {
        Received {
            bytes: Vec::new(alloc),
            head: Head::More,
        }
    }

    /// Takes more bytes, and tells what is fixed by all that came. Where memory runs out, nothing
    /// changes.
    pub fn add(&mut self, new: &[u8]) -> Result<Verdict, AllocError>
        ensures value { OnOk result (received_of self.new ≡ received_of self.old ++ new.now) }
        ensures exact { IfOk result (IsVerdict (received_of self.new) false) }
        ensures within { IfOk result (IsVerdictIn (received_of self.new)) }
        ensures kept { OnErr result (received_of self.new ≡ received_of self.old) }
    {
        let before = self.bytes.len();
        self.bytes.extend_from_slice(new)?;
        if let Head::More = self.head {
            self.head = head_from(self.bytes.as_slice(), before);
        }
        Ok(verdict_by(self.head, self.bytes.as_slice(), false))
    }

    /// What is fixed where the peer ended after these bytes.
    pub fn end(&self) -> Verdict
        ensures exact { IsVerdict (received_of self.now) true result }
        ensures within { IsVerdictIn (received_of self.now) result }
    {
        verdict_by(self.head, self.bytes.as_slice(), true)
    }

    /// All bytes that came.
    pub fn as_slice(&self) -> &[u8]
        ensures value { result.now ≡ received_of self.now }
    {
        self.bytes.as_slice()
    }

    /// The bytes of a span.
    pub fn part(&self, span: Span) -> &[u8]
        requires ordered { span.start ≤ span.end }
        requires fits { span.end ≤ length (received_of self.now) }
        ensures value { result.now ≡ part (received_of self.now) span }
    {
        span.of(self.bytes.as_slice())
    }
}

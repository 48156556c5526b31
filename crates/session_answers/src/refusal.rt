//! The answers that have a line of their own.

ghost use Rattle.std.specs.Prelude.{◌≡◌};
ghost use Rattle.session_answers.specs.Frames.{refusal_line, status_of};

/// Why a connection isn't answered otherwise.
#[derive(Clone, Copy)]
pub enum Refusal {
    /// The head has more than 16,384 bytes.
    HeadTooLong,
    /// The head is none that is served, or the peer ended before its request was whole.
    BadRequest,
    /// The path is none that is served.
    UnknownPath,
    /// The method isn't that of the path.
    MethodNotAllowed,
    /// The body has more than 262,144 bytes.
    BodyTooLong,
    /// As many uploads are stored as may be.
    UploadsFull,
    /// No stored profile has the name.
    UnknownProfile,
    /// As many sessions are held as may be.
    SessionsFull,
    /// Memory ran out.
    OutOfMemory,
}

impl Refusal {
    /// Its status.
    pub fn status(self) -> u16
        ensures exact { result ≡ status_of self }
    {
        match self {
            Refusal::HeadTooLong => 413,
            Refusal::BadRequest => 400,
            Refusal::UnknownPath => 404,
            Refusal::MethodNotAllowed => 405,
            Refusal::BodyTooLong => 413,
            Refusal::UploadsFull => 503,
            Refusal::UnknownProfile => 404,
            Refusal::SessionsFull => 503,
            Refusal::OutOfMemory => 500,
        }
    }

    /// Its line, without an end of line.
    pub fn line(self) -> &'static [u8]
        ensures exact { result.now ≡ refusal_line self }
    {
        match self {
            Refusal::HeadTooLong => b"head too long",
            Refusal::BadRequest => b"bad request",
            Refusal::UnknownPath => b"path unknown",
            Refusal::MethodNotAllowed => b"method not allowed",
            Refusal::BodyTooLong => b"body too long",
            Refusal::UploadsFull => b"uploads full",
            Refusal::UnknownProfile => b"profile unknown",
            Refusal::SessionsFull => b"sessions full",
            Refusal::OutOfMemory => b"out of memory",
        }
    }
}

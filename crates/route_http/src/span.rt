//! A part of a list of bytes, told by its places.
ghost use Rattle.std.specs.Prelude.{◌≡◌, ◌≤◌, length, slice_range};

/// The bytes from `start` on and before `end`.
#[derive(Clone, Copy)]
pub struct Span {
    pub start: usize,
    pub end: usize,
}

impl Span {
    /// The part of `bytes` that the span tells.
    pub fn of<'b>(self, bytes: &'b [u8]) -> &'b [u8]
        requires ordered { self.start ≤ self.end }
        requires fits { self.end ≤ length bytes.now }
        ensures value { result.now ≡ slice_range bytes.now self.start self.end }
    {
        &bytes[self.start..self.end]
    }
}

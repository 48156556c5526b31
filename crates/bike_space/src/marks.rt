//! Whether a number is marked.

ghost use Rattle.std.specs.Prelude.{◌≡◌};
ghost use Rattle.bike_space.specs.Marks.{is_marked};

/// Whether a number is marked in a list; what is behind its end isn't.
pub(crate) fn is_marked(marks: &[bool], number: u32) -> bool
    ensures exact { result ≡ is_marked marks.now number }
{
    match marks.get(number as usize) {
        Some(mark) => *mark,
        None => false,
    }
}

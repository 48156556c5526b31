//! Texts that are parted at commas and at marks.
ghost use Rattle.std.specs.Prelude.{◌≡◌, ◌∷◌, ◌≤◌, length};
ghost use Rattle.route_http.specs.Value.{before_comma, after_comma};
ghost use Rattle.route_http.specs.List.{parts_of};
ghost use Rattle.route_http.specs.Marks.{parts_after};

use item_list::len_before;

/// The bytes before the first comma, and those after it.
pub(crate) fn at_comma(text: &[u8]) -> (&[u8], &[u8])
    ensures before { result.0.now ≡ before_comma text.now }
    ensures after { result.1.now ≡ after_comma text.now }
{
    match text.iter().position(|byte| *byte == b',') {
        Some(at) => (&text[..at], &text[at + 1..]),
        None => (text, &[]),
    }
}

/// What stands before the first mark, and what follows from that mark on.
pub(crate) fn at_mark(text: &[u8], mark: u8) -> (&[u8], &[u8])
    ensures value { parts_of mark text.now ≡ result.0.now ∷ parts_after mark result.1.now }
    ensures fits { length result.1.now ≤ length text.now }
{
    text.split_at(len_before(text, mark))
}

//! Texts of tags: pieces, and spaces at their ends.

ghost use Rattle.std.specs.Prelude.{◌≡◌, ◌+◌, ◌<◌, ◌≤◌, length, drop};
ghost use Rattle.overpass_graph.specs.Restrictions.{without_front as front_cut, without_end as end_cut, trimmed as trimmed_bytes, names_bicycle as names_bicycle_among, pieces};
ghost use Rattle.std.specs.Str.{bytes_eq};
ghost use Rattle.overpass_graph.specs.Texts.{bicycle};

use item_list::len_before;

/// Whether a piece of a text, cut at semicolons, says `bicycle`, spaces at its ends aside.
pub(crate) fn names_bicycle(text: &[u8]) -> bool
    ensures value { result ≡ names_bicycle_among (pieces text.now) }
{
    let mut rest = text;
    'pieces: loop {
        let end = len_before(rest, b';');
        if is_bicycle(&rest[..end]) {
            return true;
        }
        if end >= rest.len() {
            return false;
        }
        rest = behind(rest, end);
    }
}

/// What stands behind a place.
fn behind(text: &[u8], place: usize) -> &[u8]
    requires within { place < length text.now }
    ensures value { result.now ≡ drop (place + 1) text.now }
{
    let here = &text[place..];
    &here[1..]
}

/// Whether a piece says `bicycle`, spaces at its ends aside.
fn is_bicycle(piece: &[u8]) -> bool
    ensures value { result ≡ bytes_eq (trimmed_bytes piece.now) bicycle }
{
    without_end(without_front(piece)) == b"bicycle".as_slice()
}

/// A text without the spaces at its front.
fn without_front(text: &[u8]) -> &[u8]
    ensures value { result.now ≡ front_cut text.now }
{
    'bytes: for (place, byte) in text.iter().enumerate() {
        if *byte != b' ' {
            return &text[place..];
        }
    }
    &text[text.len()..]
}

/// A text without the spaces at its end.
fn without_end(text: &[u8]) -> &[u8]
    ensures value { result.now ≡ end_cut text.now }
{
    let mut end = text.len();
    'end: while end > 0 {
        if text[end - 1] != b' ' {
            return &text[..end];
        }
        end -= 1;
    }
    &text[..end]
}

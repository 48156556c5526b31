//! The words of a line.
ghost use Rattle.std.specs.Prelude.{◌≡◌, ◌+◌, ◌<◌, ◌≤◌, [], ◌∷◌, length, drop, MatchOption};
ghost use Rattle.std.specs.List.{prefix_len};
ghost use Rattle.item_list.specs.Bytes.{is_space};
ghost use Rattle.lookup_table.specs.Words.{is_ink, words_of, trimmed};

use item_list::is_space;

/// The first word of a text, and what follows it.
pub(crate) fn next_word(text: &[u8]) -> Option<(&[u8], &[u8])>
    ensures value { MatchOption result (words_of text.now ≡ [])
        (λ p. words_of text.now ≡ p.0.now ∷ words_of p.1.now) }
    ensures fits { MatchOption result (Unit {0}) (λ p. length p.1.now < length text.now) }
{
    let rest = without_space(text);
    if rest.is_empty() {
        None
    } else {
        Some(rest.split_at(word_len(rest)))
    }
}

/// A text without the white space at its front.
fn without_space(text: &[u8]) -> &[u8]
    ensures value { result.now ≡ drop (prefix_len is_space text.now) text.now }
    ensures fits { length result.now ≤ length text.now }
{
    let (_, rest) = text.split_at(space_len(text));
    rest
}

/// How much white space stands at the front.
fn space_len(text: &[u8]) -> usize
    ensures value { result ≡ prefix_len is_space text.now }
    ensures fits { result ≤ length text.now }
{
    for (i, byte) in text.iter().enumerate() {
        if !is_space(*byte) {
            return i;
        }
    }
    text.len()
}

/// How long the word at the front is.
fn word_len(text: &[u8]) -> usize
    ensures value { result ≡ prefix_len is_ink text.now }
    ensures fits { result ≤ length text.now }
{
    for (i, byte) in text.iter().enumerate() {
        if is_space(*byte) {
            return i;
        }
    }
    text.len()
}

/// A text without the white space at its end.
pub(crate) fn trimmed(text: &[u8]) -> &[u8]
    ensures value { result.now ≡ trimmed text.now }
{
    let mut end = text.len();
    while end > 0 {
        if !is_space(text[end - 1]) {
            return &text[..end];
        }
        end -= 1;
    }
    &text[..0]
}

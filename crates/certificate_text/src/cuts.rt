//! Texts cut at a byte, or behind a word.

ghost use Rattle.std.specs.Prelude.{◌≡◌, ◌∷◌, ◌++◌, ◌≤◌, List, ℕ, length, MatchOption};
ghost use Rattle.certificate_text.specs.Parts.{Begins, HasNo};

use item_list::len_before;

/// What stands before the first byte like this one, and what follows it.
pub(crate) fn cut(text: &[u8], byte: u8) -> Option<(&[u8], &[u8])>
    ensures exact { MatchOption result (HasNo byte text.now)
        (λ p. HasNo byte p.0.now × (text.now ≡ p.0.now ++ (byte ∷ p.1.now))) }
{
    let (front, back) = word(text, byte);
    if back.is_empty() {
        return None;
    }
    let (_, rest) = back.split_at(1);
    Some((front, rest))
}

/// What stands before the first byte like this one, and what stands from it on.
pub(crate) fn word(text: &[u8], byte: u8) -> (&[u8], &[u8])
    ensures front { HasNo byte result.0.now }
    ensures back { Begins byte result.1.now }
    ensures whole { text.now ≡ result.0.now ++ result.1.now }
{
    text.split_at(len_before(text, byte))
}

/// What follows a word at a text's front.
pub(crate) fn behind<'a>(text: &'a [u8], front: &[u8]) -> Option<&'a [u8]>
    ensures exact { MatchOption result ((rest : List ℕ) → text.now ≡ front.now ++ rest → ⊥)
        (λ rest. text.now ≡ front.now ++ rest.now) }
{
    if text.len() < front.len() {
        return None;
    }
    let (own, rest) = text.split_at(front.len());
    if own == front { Some(rest) } else { None }
}

/// What follows the byte that a text begins with, where that is this one.
pub(crate) fn behind_byte(text: &[u8], byte: u8) -> Option<&[u8]>
    ensures exact { MatchOption result ((rest : List ℕ) → text.now ≡ byte ∷ rest → ⊥)
        (λ rest. text.now ≡ byte ∷ rest.now) }
{
    if text.is_empty() {
        return None;
    }
    let (_, rest) = text.split_at(1);
    if text[0] == byte { Some(rest) } else { None }
}

/// How many bytes of a text are this one.
pub(crate) fn count_of(text: &[u8], byte: u8) -> usize
    ensures fits { result ≤ length text.now }
{
    let mut count = 0;
    'bytes: for place in 0..text.len() {
        if text[place] == byte {
            count += 1;
        }
    }
    count
}

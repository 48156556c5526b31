//! The parts of a look: a tag, and the values that it is compared with.
ghost use Rattle.std.specs.Prelude.{◌≡◌, ◌≤◌, false, IfOk};
ghost use Rattle.profile_text.specs.Look.{is_look, are_values, are_parted, pieces, tag_of, values_of};

use item_list::{Items, Name, bytes_of, len_before};
use std::alloc::{AllocError, Global};

/// Whether a token is a nonempty tag, `=`, and nothing or nonempty values parted by `|`.
pub(crate) fn is_look(text: &[u8]) -> bool
    ensures value { result ≡ is_look text.now }
{
    let len = len_before(text, b'=');
    len > 0 && len < text.len() && are_values(&text[len + 1..])
}

/// The tag of a look.
pub(crate) fn tag_of(alloc: Global, text: &[u8]) -> Result<Name, AllocError>
    ensures value { IfOk result (λ n. n ≡ tag_of text.now) }
{
    copied(alloc, &text[..len_before(text, b'=')])
}

/// The values of a look; none where nothing follows the `=`.
pub(crate) fn values_of(alloc: Global, text: &[u8]) -> Result<Items<Name>, AllocError>
    ensures value { IfOk result (λ v. v ≡ values_of text.now) }
{
    let len = len_before(text, b'=');
    if len + 1 >= text.len() {
        return Ok(Items::new(alloc));
    }
    pieces(alloc, &text[len + 1..])
}

/// The values that `|` parts.
fn pieces(alloc: Global, text: &[u8]) -> Result<Items<Name>, AllocError>
    ensures value { IfOk result (λ v. v ≡ pieces text.now) }
{
    let mut values = Items::new(alloc);
    let mut rest = text;
    'pieces: loop {
        let (piece, after) = rest.split_at(len_before(rest, b'|'));
        let value = copied(alloc, piece)?;
        values.push(value)?;
        if after.is_empty() {
            return Ok(values);
        }
        let (_, next) = after.split_at(1);
        rest = next;
    }
}

/// Whether a text is empty, or nonempty values parted by `|`.
fn are_values(text: &[u8]) -> bool
    ensures value { result ≡ are_values text.now }
{
    text.is_empty() || are_parted(text)
}

/// Whether a text is nonempty values parted by `|`.
fn are_parted(text: &[u8]) -> bool
    ensures value { result ≡ are_parted false text.now }
{
    let mut begun = false;
    'values: for byte in text {
        if *byte == b'|' && !begun {
            return false;
        }
        begun = *byte != b'|';
    }
    begun
}

/// A name with these bytes.
pub(crate) fn copied(alloc: Global, bytes: &[u8]) -> Result<Name, AllocError>
    ensures value { IfOk result (λ n. n ≡ bytes.now) }
{
    Ok(Items::from_vec(bytes_of(alloc, bytes)?))
}

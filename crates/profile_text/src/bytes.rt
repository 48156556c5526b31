//! The bytes of a profile's text.
ghost use Rattle.std.specs.Prelude.{◌≡◌, ◌+◌, ◌<◌, ◌≤◌, ◌^◌, length};
ghost use Rattle.std.specs.List.{prefix_len};
ghost use Rattle.profile_text.specs.Token.{is_ink, is_word_byte, comment_after, line_after};

use item_list::is_space;

/// Whether a byte belongs to a token, inside a comment or outside.
pub(crate) fn is_ink(comment: bool, byte: u8) -> bool
    ensures value { result ≡ is_ink comment byte }
{
    !comment && !is_space(byte) && byte != b'#'
}

/// Whether a byte belongs to a token of several bytes.
pub(crate) fn is_word_byte(byte: u8) -> bool
    ensures value { result ≡ is_word_byte byte }
{
    is_ink(false, byte) && byte != b'(' && byte != b')'
}

/// Whether the text is inside a comment after this byte.
pub(crate) fn comment_after(comment: bool, byte: u8) -> bool
    ensures value { result ≡ comment_after comment byte }
{
    byte != b'\n' && (comment || byte == b'#')
}

/// How many line ends stand up to this byte.
pub(crate) fn breaks_after(breaks: u32, byte: u8) -> u32
    requires fits { breaks + 1 < 2 ^ 32 }
    ensures value { result + 1 ≡ line_after (breaks + 1) byte }
    ensures fits { result ≤ breaks + 1 }
{
    if byte == b'\n' { breaks + 1 } else { breaks }
}

/// How many bytes of a word stand at the front.
pub(crate) fn word_len(text: &[u8]) -> usize
    ensures value { result ≡ prefix_len is_word_byte text.now }
    ensures fits { result ≤ length text.now }
{
    for (i, byte) in text.iter().enumerate() {
        if !is_word_byte(*byte) {
            return i;
        }
    }
    text.len()
}

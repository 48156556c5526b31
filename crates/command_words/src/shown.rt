//! How a word of a command line is shown.

ghost use Rattle.std.specs.Prelude.{◌≡◌, ◌++◌, OnOk, ◌<◌, take};
ghost use Rattle.command_words.specs.Shown.{byte_text, bytes_text, hex_digit, is_plain, most_shown, shown};

use item_list::append_bytes;
use std::alloc::AllocError;

/// How many bytes of a word are shown at most.
const MOST_SHOWN: usize = 80;

/// Appends a word as it is shown: its first bytes, each that isn't printable ASCII by an escape, and
/// two dots where there are more.
#[tactic(auto, unfolding(crate::specs::Shown::shown))]
pub fn append_shown(text: &mut Vec<u8>, word: &[u8]) -> Result<(), AllocError>
    ensures exact { OnOk result (text.new.items ≡ text.old.items ++ shown word.now) }
{
    append_each(text, front(word))?;
    append_bytes(text, if MOST_SHOWN < word.len() { b".." } else { b"" })
}

/// The first bytes of a word, as many as are shown at most.
fn front(word: &[u8]) -> &[u8]
    ensures value { result.now ≡ take most_shown word.now }
{
    if MOST_SHOWN < word.len() {
        &word[..MOST_SHOWN]
    } else {
        word
    }
}

/// Appends bytes as they are shown.
fn append_each(text: &mut Vec<u8>, bytes: &[u8]) -> Result<(), AllocError>
    ensures exact { OnOk result (text.new.items ≡ text.old.items ++ bytes_text bytes.now) }
{
    'bytes: for byte in bytes {
        append_byte(text, *byte)?;
    }
    Ok(())
}

/// Appends a byte as it is shown.
#[tactic(auto, unfolding(crate::specs::Shown::byte_text))]
fn append_byte(text: &mut Vec<u8>, byte: u8) -> Result<(), AllocError>
    ensures exact { OnOk result (text.new.items ≡ text.old.items ++ byte_text byte) }
{
    if is_plain(byte) {
        append_bytes(text, &[byte])
    } else {
        append_bytes(
            text,
            &[b'\\', b'x', hex_digit(byte / 16), hex_digit(byte % 16)],
        )
    }
}

/// Whether a byte is shown as it is: it is printable ASCII and no backslash.
fn is_plain(byte: u8) -> bool
    ensures exact { result ≡ is_plain byte }
{
    32 <= byte && byte <= 126 && byte != b'\\'
}

/// A hexadecimal digit.
#[tactic(auto, unfolding(crate::specs::Shown::hex_digit))]
fn hex_digit(number: u8) -> u8
    requires digit { number < 16 }
    ensures exact { result ≡ hex_digit number }
{
    if number < 10 {
        b'0' + number
    } else {
        b'a' - 10 + number
    }
}

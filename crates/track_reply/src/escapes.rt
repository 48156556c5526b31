//! Texts within quotes.

ghost use Rattle.std.specs.Prelude.{◌≡◌, ◌++◌, ◌<◌, OnOk};
ghost use Rattle.track_reply.specs.Escapes.{escaped, escaped_byte, hex_digit};

use std::alloc::AllocError;

/// Appends a text as it stands within quotes.
#[tactic(auto, unfolding(crate::specs::Escapes::escaped))]
pub fn append_escaped(out: &mut Vec<u8>, text: &[u8]) -> Result<(), AllocError>
    ensures exact { OnOk result (out.new.items ≡ out.old.items ++ escaped text.now) }
{
    'bytes: for place in 0..text.len() {
        append_byte(out, text[place])?;
    }
    Ok(())
}

/// Appends a byte as it stands within quotes.
#[tactic(auto, unfolding(crate::specs::Escapes::escaped_byte))]
fn append_byte(out: &mut Vec<u8>, byte: u8) -> Result<(), AllocError>
    ensures exact { OnOk result (out.new.items ≡ out.old.items ++ escaped_byte byte) }
{
    if byte == b'"' || byte == b'\\' {
        out.extend_from_slice(&[b'\\', byte])
    } else if byte < 32 {
        out.extend_from_slice(&[
            b'\\',
            b'u',
            b'0',
            b'0',
            hex_digit(byte / 16),
            hex_digit(byte % 16),
        ])
    } else {
        out.extend_from_slice(&[byte])
    }
}

/// The hexadecimal digit of a number below 16.
fn hex_digit(n: u8) -> u8
    requires below { n < 16 }
    ensures exact { result ≡ hex_digit n }
{
    if n < 10 { b'0' + n } else { b'a' - 10 + n }
}

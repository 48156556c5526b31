//! Bytes put at the end of a text that has room for them, so that no memory is taken.

ghost use Rattle.std.specs.Prelude.{◌≡◌, ◌+◌, ◌<◌, ◌≤◌, ◌++◌, pos, length, decimal, vec_len, vec_capacity};
ghost use Rattle.fixed_num.specs.Text.{mil6};

use fixed_num::SixDecimals;
use itoa::Buffer;

/// Puts bytes at the end.
pub(crate) fn put(text: &mut Vec<u8>, bytes: &[u8])
    requires room { vec_len text.old + length bytes.now ≤ vec_capacity text.old }
    ensures value { text.new.items ≡ text.old.items ++ bytes.now }
    ensures fits { vec_len text.new ≡ vec_len text.old + length bytes.now }
    ensures kept { vec_capacity text.old ≤ vec_capacity text.new }
{
    match text.extend_from_slice(bytes) {
        Ok(()) => {}
        Err(_) => unreachable!(),
    }
}

/// Puts the digits of a number at the end.
pub(crate) fn put_number(text: &mut Vec<u8>, number: u32)
    requires room { vec_len text.old + 20 ≤ vec_capacity text.old }
    ensures value { text.new.items ≡ text.old.items ++ decimal number }
    ensures fits { vec_len text.new ≤ vec_len text.old + 20 }
    ensures kept { vec_capacity text.old ≤ vec_capacity text.new }
{
    let mut buffer = Buffer::new();
    put(text, buffer.format(number).as_bytes());
}

/// Puts microdegrees at the end, as degrees with six decimals.
pub(crate) fn put_degrees(text: &mut Vec<u8>, microdegrees: u32)
    requires room { vec_len text.old + 47 ≤ vec_capacity text.old }
    ensures value { text.new.items ≡ text.old.items ++ mil6 (pos microdegrees) }
    ensures fits { vec_len text.new ≤ vec_len text.old + 47 }
    ensures kept { vec_capacity text.old ≤ vec_capacity text.new }
{
    let degrees = SixDecimals::of(i128::from(microdegrees));
    put(text, degrees.as_slice());
}

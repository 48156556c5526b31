//! Lengths and heights as decimal texts.

ghost use Rattle.std.specs.Prelude.{◌≡◌, ◌+◌, ◌<◌, ◌≤◌, ◌++◌, length, OnOk, OnErr};
ghost use Rattle.geo_int.specs.Texts.{metres_text, height_text, hundredths_text};

use itoa::Buffer;
use std::alloc::AllocError;

/// Appends a length in millimetres as metres with three decimals. Where memory runs out, nothing is
/// appended.
pub fn mm3(text: &mut Vec<u8>, millimetres: u128) -> Result<(), AllocError>
    ensures exact { OnOk result (text.new.items ≡ text.old.items ++ metres_text millimetres) }
    ensures kept { OnErr result (text.new.items ≡ text.old.items) }
{
    let mut buffer = Buffer::new();
    let whole = buffer.format(millimetres / 1000);
    let part = (millimetres % 1000) as u16;
    let decimals = [
        b'.',
        digit(part / 100),
        digit(part / 10 % 10),
        digit(part % 10),
    ];
    append(text, b"", whole.as_bytes(), &decimals)
}

/// Appends a height in micrometres as metres with two decimals, rounded down. Where memory runs
/// out, nothing is appended.
pub fn ele(text: &mut Vec<u8>, height: i64) -> Result<(), AllocError>
    ensures exact { OnOk result (text.new.items ≡ text.old.items ++ height_text height) }
    ensures kept { OnErr result (text.new.items ≡ text.old.items) }
{
    let hundredths = height.div_euclid(10_000);
    if hundredths < 0 {
        append_hundredths(text, b"-", hundredths.unsigned_abs())
    } else {
        append_hundredths(text, b"", hundredths.unsigned_abs())
    }
}

/// A sign, and hundredths with two decimals.
fn append_hundredths(text: &mut Vec<u8>, sign: &[u8], size: u64) -> Result<(), AllocError>
    requires fits { length sign.now ≤ 1 }
    ensures exact { OnOk result
        (text.new.items ≡ text.old.items ++ (sign.now ++ hundredths_text size)) }
    ensures kept { OnErr result (text.new.items ≡ text.old.items) }
{
    let mut buffer = Buffer::new();
    let whole = buffer.format(size / 100);
    let part = (size % 100) as u16;
    let decimals = [b'.', digit(part / 10), digit(part % 10)];
    append(text, sign, whole.as_bytes(), &decimals)
}

/// A number in its three pieces: all of them, or nothing.
fn append(text: &mut Vec<u8>, sign: &[u8], whole: &[u8], decimals: &[u8]) -> Result<(), AllocError>
    requires sign { length sign.now ≤ 1 }
    requires whole { length whole.now ≤ 40 }
    requires decimals { length decimals.now ≤ 4 }
    ensures exact { OnOk result
        (text.new.items ≡ text.old.items ++ (sign.now ++ (whole.now ++ decimals.now))) }
    ensures kept { OnErr result (text.new.items ≡ text.old.items) }
{
    text.reserve(sign.len() + whole.len() + decimals.len())?;
    text.extend_from_slice(sign)?;
    text.extend_from_slice(whole)?;
    text.extend_from_slice(decimals)?;
    Ok(())
}

/// The digit of a number below ten.
fn digit(n: u16) -> u8
    requires fits { n < 10 }
    ensures exact { result ≡ 48 + n }
{
    b'0' + n as u8
}

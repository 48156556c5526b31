//! Where runs of bytes end that are read without a step.

ghost use Rattle.std.specs.Prelude.{◌≡◌, ◌≤◌, ◌-◌, length, take, drop};
ghost use Rattle.json_text.specs.Bytes as bytes_;
ghost use Rattle.json_text.specs.Rest as rest;
ghost use Rattle.json_text.specs.Told.{PartsGo};

use crate::bytes::{is_digit, is_space, next_part};
use crate::mode::Part;

/// Whether a byte stands for itself between quotation marks.
fn is_plain(b: u8) -> bool
    ensures value { result ≡ bytes_.is_plain b }
{
    // Small letters come most often, so they are told by one test.
    (93 <= b && b < 128) || (32 <= b && b < 92 && b != 34)
}

/// Whether a part of a number goes on with each digit.
fn takes_digits(part: Part) -> bool
    ensures value { result ≡ rest.takes_digits part }
{
    match part {
        Part::Whole | Part::Fraction | Part::Exponent => true,
        Part::Nothing | Part::Minus | Part::Zero | Part::Point | Part::Letter | Part::Sign => false,
    }
}

/// Where white space ends.
pub fn spaces_end(bytes: &[u8], from: usize) -> usize
    requires within { from ≤ length bytes.now }
    ensures onward { from ≤ result }
    ensures within { result ≤ length bytes.now }
    ensures all { bytes_.AreAll bytes_.is_space (take (result - from) (drop from bytes.now)) }
{
    let mut at = from;
    'run: while at < bytes.len() && is_space(bytes[at]) {
        at += 1;
    }
    at
}

/// Where plain bytes of a text end.
pub fn plain_end(bytes: &[u8], from: usize) -> usize
    requires within { from ≤ length bytes.now }
    ensures onward { from ≤ result }
    ensures within { result ≤ length bytes.now }
    ensures all { bytes_.AreAll bytes_.is_plain (take (result - from) (drop from bytes.now)) }
{
    let mut at = from;
    'run: while at < bytes.len() && is_plain(bytes[at]) {
        at += 1;
    }
    at
}

/// Where digits end.
fn digits_end(bytes: &[u8], from: usize) -> usize
    requires within { from ≤ length bytes.now }
    ensures onward { from ≤ result }
    ensures within { result ≤ length bytes.now }
    ensures all { bytes_.AreAll bytes_.is_digit (take (result - from) (drop from bytes.now)) }
{
    let mut at = from;
    'run: while at < bytes.len() && is_digit(bytes[at]) {
        at += 1;
    }
    at
}

/// Where the digits end with which a part of a number goes on.
fn part_end(bytes: &[u8], from: usize, part: Part) -> usize
    requires within { from ≤ length bytes.now }
    ensures onward { from ≤ result }
    ensures within { result ≤ length bytes.now }
    ensures all { PartsGo part (take (result - from) (drop from bytes.now)) part }
{
    if takes_digits(part) {
        digits_end(bytes, from)
    } else {
        from
    }
}

/// Where a number ends of which a part was read, and the part that was read last then.
pub fn number_end(bytes: &[u8], from: usize, part: Part) -> (usize, Part)
    requires within { from ≤ length bytes.now }
    ensures onward { from ≤ result.0 }
    ensures within { result.0 ≤ length bytes.now }
    ensures all { PartsGo part (take (result.0 - from) (drop from bytes.now)) result.1 }
{
    let mut at = from;
    let mut last = part;
    'run: while at < bytes.len() {
        match next_part(last, bytes[at]) {
            Some(next) => {
                last = next;
                at = part_end(bytes, at + 1, next);
            }
            None => break,
        }
    }
    (at, last)
}

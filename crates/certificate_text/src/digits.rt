//! Numbers of so few digits that they have 64 bits.

ghost use Rattle.std.specs.Prelude.{◌≡◌, ◌<◌, ◌≤◌, ◌↔◌, IsTrue, decimal};
ghost use Rattle.certificate_text.specs.Parts.{IsPlain, IsScanned, IsShort, ReadsTo, Stops, told};

use crate::cuts::behind_byte;
use item_list::is_digit;

/// So many digits are read one after the other.
const DIGITS: usize = 19;

/// How many digits a text begins with, at most 19 being counted, and the number that they are.
fn digits_at(text: &[u8]) -> (usize, u64)
    ensures few { result.0 ≤ 19 }
    ensures digits { IsScanned text.now result.0 result.1 }
    ensures stops { Stops text.now result.0 }
{
    let end = text.len().min(DIGITS);
    let mut number = 0;
    'digits: for place in 0..end {
        if !is_digit(text[place]) {
            return (place, number);
        }
        number = number * 10 + u64::from(text[place] - b'0');
    }
    (end, number)
}

/// Whether digits are some, without a needless zero.
fn is_plain(digits: &[u8]) -> bool
    ensures exact { IsTrue result ↔ IsPlain digits.now }
{
    match digits.len() {
        0 => false,
        1 => true,
        _ => digits[0] != b'0',
    }
}

/// The number of at most 19 digits before a byte, and what follows that.
pub(crate) fn short_before(text: &[u8], byte: u8) -> Option<(u64, &[u8])>
    requires low { byte < 48 }
    ensures exact { ReadsTo byte decimal IsShort text.now (told result) }
{
    let (count, number) = digits_at(text);
    let (digits, back) = text.split_at(count);
    if !is_plain(digits) {
        return None;
    }
    let Some(rest) = behind_byte(back, byte) else {
        return None;
    };
    Some((number, rest))
}

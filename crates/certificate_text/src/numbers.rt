//! Numbers in decimal digits, without a needless zero, up to a byte that follows them.

ghost use Rattle.std.specs.Prelude.{◌≡◌, ◌<◌, ◌↔◌, IsTrue, FitsSigned, decimal};
ghost use Rattle.std.specs.Fmt.{signed_decimal};
ghost use Rattle.certificate_text.specs.Lines.{IsBuffer, IsCost};
ghost use Rattle.certificate_text.specs.Parts.{IsNumber, Reads, ReadsTo, told};
ghost use mir.Syntax.{w64};

use crate::cuts::cut;
use crate::digits::short_before;
use itoa::Buffer;

/// Above every cost that a certificate may have.
const COST_END: u128 = 170_141_183_460_469_231_731_687_303_715_884_105_728;

/// The cost before a byte, and what follows that.
pub(crate) fn cost_before(text: &[u8], byte: u8) -> Option<(u128, &[u8])>
    requires low { byte < 48 }
    ensures exact { ReadsTo byte decimal IsCost text.now (told result) }
{
    match short_before(text, byte) {
        Some(found) => {
            let (cost, rest) = found;
            Some((u128::from(cost), rest))
        }
        None => long_before(text, byte),
    }
}

/// The cost before a byte, however long.
fn long_before(text: &[u8], byte: u8) -> Option<(u128, &[u8])>
    requires low { byte < 48 }
    ensures exact { ReadsTo byte decimal IsCost text.now (told result) }
{
    let Some(found) = cut(text, byte) else {
        return None;
    };
    let (front, rest) = found;
    let Some(cost) = cost_of(front) else {
        return None;
    };
    Some((cost, rest))
}

/// The cost that a text says.
fn cost_of(text: &[u8]) -> Option<u128>
    ensures exact { Reads decimal IsCost text.now result }
{
    let Ok(word) = std::str::from_utf8(text) else {
        return None;
    };
    let Ok(cost) = u128::from_str_radix(word, 10) else {
        return None;
    };
    if cost < COST_END && is_cost(text, cost) {
        Some(cost)
    } else {
        None
    }
}

/// Whether a text is the digits of a cost.
fn is_cost(text: &[u8], cost: u128) -> bool
    ensures exact { IsTrue result ↔ (text.now ≡ decimal cost) }
{
    let mut buffer = Buffer::new();
    text == buffer.format(cost).as_bytes()
}

/// The number of 32 bits before a byte, and what follows that.
pub(crate) fn number_before(text: &[u8], byte: u8) -> Option<(u32, &[u8])>
    requires low { byte < 48 }
    ensures exact { ReadsTo byte decimal IsNumber text.now (told result) }
{
    let Some(found) = short_before(text, byte) else {
        return None;
    };
    let (number, rest) = found;
    if number < 4_294_967_296 {
        Some((number as u32, rest))
    } else {
        None
    }
}

/// The id before a byte, and what follows that.
pub(crate) fn id_before(text: &[u8], byte: u8) -> Option<(i64, &[u8])>
    requires low { byte < 48 }
    ensures exact { ReadsTo byte signed_decimal (FitsSigned w64) text.now (told result) }
{
    if text.is_empty() || text[0] != b'-' {
        return buffer_before(text, byte);
    }
    let (_, digits) = text.split_at(1);
    let Some(found) = short_before(digits, byte) else {
        return None;
    };
    let (number, rest) = found;
    if number == 0 {
        return None;
    }
    let below = number - 1;
    if below < 9_223_372_036_854_775_808 {
        Some((-1 - below as i64, rest))
    } else {
        None
    }
}

/// The buffer before a byte, and what follows that.
pub(crate) fn buffer_before(text: &[u8], byte: u8) -> Option<(i64, &[u8])>
    requires low { byte < 48 }
    ensures exact { ReadsTo byte signed_decimal IsBuffer text.now (told result) }
{
    let Some(found) = short_before(text, byte) else {
        return None;
    };
    let (number, rest) = found;
    if number < 9_223_372_036_854_775_808 {
        Some((number as i64, rest))
    } else {
        None
    }
}

//! The content of a text, written behind what is there.

ghost use Rattle.std.specs.Prelude.{◌≡◌, ◌<◌, ◌≤◌, ◌++◌, OnOk, Option};
ghost use Rattle.json_text.specs.Chars as chars;

use crate::bytes::hex_value;
use std::alloc::AllocError;

/// Writes a code point in UTF-8.
pub fn push_utf8(out: &mut Vec<u8>, n: u32) -> Result<(), AllocError>
    requires small { n < 1114112 }
    ensures value { OnOk result (out.new.items ≡ out.old.items ++ chars.utf8 n) }
{
    if n < 128 {
        out.push(n as u8)?;
        Ok(())
    } else if n < 2048 {
        out.extend_from_slice(&[(192 + n / 64) as u8, (128 + n % 64) as u8])
    } else if n < 65536 {
        push_three(out, n)
    } else {
        push_four(out, n)
    }
}

/// Writes a code point that takes three bytes.
fn push_three(out: &mut Vec<u8>, n: u32) -> Result<(), AllocError>
    requires low { 2048 ≤ n }
    requires high { n < 65536 }
    ensures value { OnOk result (out.new.items ≡ out.old.items ++ chars.utf8 n) }
{
    out.extend_from_slice(&[
        (224 + n / 4096) as u8,
        (128 + n / 64 % 64) as u8,
        (128 + n % 64) as u8,
    ])
}

/// Writes a code point that takes four bytes.
fn push_four(out: &mut Vec<u8>, n: u32) -> Result<(), AllocError>
    requires low { 65536 ≤ n }
    requires high { n < 1114112 }
    ensures value { OnOk result (out.new.items ≡ out.old.items ++ chars.utf8 n) }
{
    out.extend_from_slice(&[
        (240 + n / 262144) as u8,
        (128 + n / 4096 % 64) as u8,
        (128 + n / 64 % 64) as u8,
        (128 + n % 64) as u8,
    ])
}

/// Writes U+FFFD for a first half that no second one follows.
pub fn push_lone(out: &mut Vec<u8>, waiting: Option<u16>) -> Result<(), AllocError>
    ensures value { OnOk result (out.new.items ≡ out.old.items ++ chars.lone waiting) }
{
    match waiting {
        Some(_) => out.extend_from_slice(&[239, 191, 189]),
        None => Ok(()),
    }
}

/// Writes what a second half stands for, behind the first half that waits.
fn push_second(out: &mut Vec<u8>, waiting: Option<u16>, low: u16) -> Result<(), AllocError>
    ensures value { OnOk result (out.new.items ≡ out.old.items ++ chars.second waiting low) }
{
    match waiting {
        Some(high) => {
            let n = 65536 + (high as u32 % 1024 * 1024 + low as u32 % 1024);
            push_utf8(out, n)
        }
        None => out.extend_from_slice(&[239, 191, 189]),
    }
}

/// Whether a code unit is the first half of a pair of surrogates.
pub fn is_high(unit: u16) -> bool
    ensures value { result ≡ chars.is_high unit }
{
    55296 <= unit && unit <= 56319
}

/// Whether a code unit is the second half of a pair of surrogates.
fn is_low(unit: u16) -> bool
    ensures value { result ≡ chars.is_low unit }
{
    56320 <= unit && unit <= 57343
}

/// Writes what a code unit adds, where a first half may wait.
pub fn push_unit(out: &mut Vec<u8>, waiting: Option<u16>, unit: u16) -> Result<(), AllocError>
    ensures value { OnOk result (out.new.items ≡ out.old.items ++ chars.unit_bytes waiting unit) }
{
    if is_high(unit) {
        push_lone(out, waiting)
    } else if is_low(unit) {
        push_second(out, waiting, unit)
    } else {
        push_lone(out, waiting)?;
        push_utf8(out, unit as u32)
    }
}

/// The first half that waits behind a code unit.
pub fn waits(unit: u16) -> Option<u16>
    ensures value { result ≡ chars.waits unit }
{
    if is_high(unit) { Some(unit) } else { None }
}

/// The code unit of four hexadecimal digits.
pub fn unit_of(a: u8, b: u8, c: u8, d: u8) -> u16
    ensures value { result ≡ chars.unit_of a b c d }
{
    ((hex_value(a) * 16 + hex_value(b)) * 16 + hex_value(c)) * 16 + hex_value(d)
}

//! Bytes, words and numbers put at the end of a text.

ghost use Rattle.std.specs.Prelude.{◌≡◌, ◌++◌, IfOk, OnOk, OnErr, decimal};
ghost use Rattle.std.specs.Fmt.{signed_decimal};
ghost use Rattle.item_list.specs.Appended.{EndsWithFront};

use itoa::Buffer;
use std::alloc::{AllocError, Global};

/// A text of these bytes.
pub fn bytes_of(alloc: Global, bytes: &[u8]) -> Result<Vec<u8>, AllocError>
    ensures exact { IfOk result (λ text. text.items ≡ bytes.now) }
{
    Vec::from_slice(alloc, bytes)
}

/// Appends bytes. Where memory runs out, nothing is appended.
pub fn append_bytes(text: &mut Vec<u8>, bytes: &[u8]) -> Result<(), AllocError>
    ensures exact { OnOk result (text.new.items ≡ text.old.items ++ bytes.now) }
    ensures kept { OnErr result (text.new.items ≡ text.old.items) }
{
    text.extend_from_slice(bytes)
}

/// Appends a number in decimal digits. Where memory runs out, nothing is appended.
pub fn append_number(text: &mut Vec<u8>, number: u64) -> Result<(), AllocError>
    ensures exact { OnOk result (text.new.items ≡ text.old.items ++ decimal number) }
    ensures kept { OnErr result (text.new.items ≡ text.old.items) }
{
    let mut buffer = Buffer::new();
    text.extend_from_slice(buffer.format(number).as_bytes())
}

/// Appends a number of 128 bits in decimal digits. Where memory runs out, nothing is appended.
pub fn append_wide(text: &mut Vec<u8>, number: u128) -> Result<(), AllocError>
    ensures exact { OnOk result (text.new.items ≡ text.old.items ++ decimal number) }
    ensures kept { OnErr result (text.new.items ≡ text.old.items) }
{
    let mut buffer = Buffer::new();
    text.extend_from_slice(buffer.format(number).as_bytes())
}

/// Appends a signed number in decimal digits, with `-` before one below zero. Where memory runs
/// out, nothing is appended.
pub fn append_signed(text: &mut Vec<u8>, number: i64) -> Result<(), AllocError>
    ensures exact { OnOk result (text.new.items ≡ text.old.items ++ signed_decimal number) }
    ensures kept { OnErr result (text.new.items ≡ text.old.items) }
{
    let mut buffer = Buffer::new();
    text.extend_from_slice(buffer.format(number).as_bytes())
}

/// Appends a word and a number in decimal digits. Where memory runs out, a front of them may be
/// appended.
pub fn append_named(text: &mut Vec<u8>, word: &[u8], number: u64) -> Result<(), AllocError>
    ensures exact { OnOk result (text.new.items ≡ text.old.items ++ (word.now ++ decimal number)) }
    ensures kept { OnErr result
        (EndsWithFront text.old.items (word.now ++ decimal number) text.new.items) }
{
    append_bytes(text, word)?;
    append_number(text, number)
}

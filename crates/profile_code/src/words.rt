//! The words and texts that a listing is put together from.
ghost use Rattle.std.specs.Prelude.{◌≡◌, ◌++◌, OnOk};
ghost use Rattle.std.specs.Fmt.{decimal};
ghost use Rattle.profile_code.specs.Listing.{name_at, numbers_text, op_word, own_word, section_line};

use item_list::{append_bytes, append_wide};
use profile_text::{Names, Op, Section};
use std::alloc::AllocError;

/// Appends two texts.
pub(crate) fn append_two(text: &mut Vec<u8>, first: &[u8], second: &[u8]) -> Result<(), AllocError>
    ensures value { OnOk result (text.new.items ≡ text.old.items ++ (first.now ++ second.now)) }
{
    append_bytes(text, first)?;
    append_bytes(text, second)
}

/// Appends a word and a number in decimal digits.
pub(crate) fn append_counted(
    text: &mut Vec<u8>,
    word: &[u8],
    number: u128,
) -> Result<(), AllocError>
    ensures value { OnOk result (text.new.items ≡ text.old.items ++ (word.now ++ decimal number)) }
{
    append_bytes(text, word)?;
    append_wide(text, number)
}

/// Appends numbers, each after a space.
pub(crate) fn append_numbers(text: &mut Vec<u8>, numbers: &[u16]) -> Result<(), AllocError>
    ensures value { OnOk result (text.new.items ≡ text.old.items ++ numbers_text numbers.now) }
{
    'numbers: for number in numbers {
        append_counted(text, b" ", u128::from(*number))?;
    }
    Ok(())
}

/// The name at a place.
pub(crate) fn name_at(names: &Names, place: u32) -> &[u8]
    ensures exact { result.now ≡ name_at names.now place }
{
    if place < names.len() {
        names.name(place).as_slice()
    } else {
        b""
    }
}

/// The line that opens a section.
pub(crate) fn section_line(section: Section) -> &'static [u8]
    ensures exact { result.now ≡ section_line section }
{
    match section {
        Section::Global => b"section global\n",
        Section::Way => b"section way\n",
        Section::Node => b"section node\n",
    }
}

/// What the name of a section's own variable stands behind.
pub(crate) fn own_word(section: Section) -> &'static [u8]
    ensures exact { result.now ≡ own_word section }
{
    match section {
        Section::Global => b"get global ",
        Section::Way => b"get way ",
        Section::Node => b"get node ",
    }
}

/// The word of an operator.
pub(crate) fn op_word(op: Op) -> &'static [u8]
    ensures exact { result.now ≡ op_word op }
{
    match op {
        Op::Or => b"or",
        Op::And => b"and",
        Op::Xor => b"xor",
        Op::Multiply => b"multiply",
        Op::Divide => b"divide",
        Op::Add => b"add",
        Op::Sub => b"sub",
        Op::Max => b"max",
        Op::Min => b"min",
        Op::Equal => b"equal",
        Op::Greater => b"greater",
        Op::Lesser => b"lesser",
    }
}

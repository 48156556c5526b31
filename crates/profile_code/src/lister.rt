//! The text of flat code.
ghost use Rattle.std.specs.Prelude.{◌≡◌, ◌<◌, ◌+◌, ◌++◌, length, IfOk, OnOk, Some, slice_get};
ghost use lib.Chars.{codes};
ghost use Rattle.profile_code.specs.Flat.{section_of};
ghost use Rattle.profile_code.specs.Labels.{naming_in};
ghost use Rattle.profile_code.specs.Listing.{instr_text, line_text, lines_text, listing_of, numbers_text, section_text};

use crate::code::Code;
use crate::instr::{Instr, Look};
use crate::labels::Labels;
use crate::words::{
    append_counted, append_numbers, append_two, name_at, op_word, own_word, section_line,
};
use fixed_num::SixDecimals;
use item_list::append_bytes;
use lookup_table::Name;
use profile_text::Section;
use std::alloc::{AllocError, Global};

/// The text of flat code: for each section a line that opens it, and a line for each operation.
#[tactic(auto, unfolding(crate::specs::Listing::listing_of))]
pub fn listing(alloc: Global, code: &Code) -> Result<Vec<u8>, AllocError>
    ensures value { IfOk result (λ text. text.items ≡ listing_of code.now) }
{
    let mut text = Vec::new(alloc);
    append_section(&mut text, code, Section::Global)?;
    append_section(&mut text, code, Section::Way)?;
    append_section(&mut text, code, Section::Node)?;
    Ok(text)
}

/// The name that an assignment of a section sets, by the assignment's place, which is in range.
pub fn variable_name(code: &Code, section: Section, place: u32) -> &Name
    requires fits { place < length (section_of code.now section).names }
    ensures value { slice_get (section_of code.now section).names place ≡ Some result.now }
{
    code.section(section).names().name(place)
}

/// Appends a section with its operations.
fn append_section(text: &mut Vec<u8>, code: &Code, section: Section) -> Result<(), AllocError>
    ensures value { OnOk result
        (text.new.items ≡ text.old.items ++ section_text code.now section) }
{
    let part = code.section(section);
    let labels = Labels {
        own: part.names(),
        global: code.section(Section::Global).names(),
        section,
    };
    append_bytes(text, section_line(section))?;
    append_lines(text, &labels, part.instrs())
}

/// Appends the lines of operations.
fn append_lines(text: &mut Vec<u8>, labels: &Labels, instrs: &[Instr]) -> Result<(), AllocError>
    ensures value { OnOk result
        (text.new.items ≡ text.old.items ++ lines_text (naming_in labels.now) 0 0 instrs.now) }
{
    let mut place: u32 = 0;
    'lines: for (number, instr) in instrs.iter().enumerate() {
        append_line(text, labels, number, place, instr)?;
        if let Instr::Set = instr {
            place = place.checked_add(1).ok_or(AllocError)?;
        }
    }
    Ok(())
}

/// Appends the line of an operation.
fn append_line(
    text: &mut Vec<u8>,
    labels: &Labels,
    number: usize,
    place: u32,
    instr: &Instr,
) -> Result<(), AllocError>
    ensures value { let line = line_text (naming_in labels.now) number place instr.now in
        OnOk result (text.new.items ≡ text.old.items ++ line) }
{
    append_counted(text, b"", number as u128)?;
    text.push(b' ')?;
    append_instr(text, labels, number, place, instr)?;
    text.push(b'\n')?;
    Ok(())
}

/// Appends the text of an operation.
fn append_instr(
    text: &mut Vec<u8>,
    labels: &Labels,
    number: usize,
    place: u32,
    instr: &Instr,
) -> Result<(), AllocError>
    ensures value { let words = instr_text (naming_in labels.now) number place instr.now in
        OnOk result (text.new.items ≡ text.old.items ++ words) }
{
    match instr {
        Instr::Number(value) => {
            let digits = SixDecimals::of(i128::from(value.millionths()));
            append_two(text, b"num ", digits.as_slice())
        }
        Instr::Own(at) => append_two(text, own_word(labels.section), name_at(labels.own, *at)),
        Instr::Global(at) => append_two(text, b"get global ", name_at(labels.global, *at)),
        Instr::Look(look) => append_look(text, look),
        Instr::Not => append_bytes(text, b"not"),
        Instr::Truth => append_bytes(text, b"bool"),
        Instr::Two(op) => append_bytes(text, op_word(*op)),
        Instr::JumpZero(passed) => append_counted(text, b"jumpzero ", target(number, *passed)),
        Instr::Jump(passed) => append_counted(text, b"jump ", target(number, *passed)),
        Instr::Set => append_two(text, b"set ", name_at(labels.own, place)),
    }
}

/// Appends the text of a look.
fn append_look(text: &mut Vec<u8>, look: &Look) -> Result<(), AllocError>
    ensures value { OnOk result (text.new.items ≡
        text.old.items ++ ((codes "look " ++ look.now.name) ++ numbers_text look.now.numbers)) }
{
    append_two(text, b"look ", look.name.as_slice())?;
    append_numbers(text, look.numbers.as_slice())
}

/// The number of the operation to which one jumps.
fn target(number: usize, passed: usize) -> u128
    ensures exact { result ≡ number + 1 + passed }
{
    number as u128 + 1 + passed as u128
}

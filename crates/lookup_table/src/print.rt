//! The text of tag numbers.
ghost use Rattle.std.specs.Prelude.{◌≡◌, ◌≢◌, ◌<◌, ◌≤◌, ◌+◌, ◌∷◌, ◌++◌, length, IfOk, OnOk};
ghost use Rattle.lookup_table.specs.Numbers.{AreNumbersOf, item_text, tag_text, value_text};
ghost use Rattle.lookup_table.specs.First.{rows_of};
ghost use Rattle.lookup_table.specs.Noted.{parted};

use crate::part::Part;
use crate::rows::Rows;
use crate::table::Table;
use crate::tag::Tag;
use item_list::append_bytes;
use std::alloc::{AllocError, Global};

impl Table {
    /// The tags with a number other than 0, each with the first spelling of its value, or `unknown`
    /// for number 1: `tag=value`, parted by one space. The numbers are those of the part's tags.
    pub fn print(&self, alloc: Global, part: Part, numbers: &[u16]) -> Result<Vec<u8>, AllocError>
        requires fits { AreNumbersOf (rows_of self.now part) numbers.now }
        ensures value { IfOk result (λ v. v.items ≡ tag_text (rows_of self.now part) numbers.now) }
    {
        printed(alloc, self.rows(part), numbers)
    }
}

/// The text of numbers.
fn printed(alloc: Global, rows: &Rows, numbers: &[u16]) -> Result<Vec<u8>, AllocError>
    requires fits { AreNumbersOf rows.now numbers.now }
    ensures value { IfOk result (λ v. v.items ≡ tag_text rows.now numbers.now) }
{
    let mut out = Vec::new(alloc);
    let mut is_first = true;
    for (place, number) in numbers.iter().enumerate() {
        if *number != 0 {
            append_item(&mut out, is_first, rows.tag(place), *number)?;
            is_first = false;
        }
    }
    Ok(out)
}

/// Appends an item, after a space unless it is the first.
fn append_item(out: &mut Vec<u8>, is_first: bool, tag: &Tag, number: u16) -> Result<(), AllocError>
    requires some { number ≢ 0 }
    requires fits { number ≤ length tag.now.firsts + 1 }
    ensures value { let item = item_text (tag.now.name, value_text tag.now number) in
        OnOk result (out.new.items ≡ out.old.items ++ parted is_first item) }
{
    if !is_first {
        out.push(b' ')?;
    }
    append_bytes(out, tag.name())?;
    out.push(b'=')?;
    append_bytes(out, value_of(tag, number))
}

/// What a number is written as.
fn value_of(tag: &Tag, number: u16) -> &[u8]
    requires some { number ≢ 0 }
    requires fits { number ≤ length tag.now.firsts + 1 }
    ensures value { result.now ≡ value_text tag.now number }
{
    if number == 1 {
        b"unknown"
    } else {
        tag.first(number as usize - 2)
    }
}

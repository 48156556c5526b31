//! The tag numbers of a way or a node.
ghost use Rattle.std.specs.Prelude.{◌≡◌, ℕ, List, length, IfOk};
ghost use Rattle.lookup_table.specs.Numbers.{AreFirstSpellings, AreNumbersOf, printed_tags, tag_numbers};
ghost use Rattle.lookup_table.specs.Noted.{noted};
ghost use Rattle.lookup_table.specs.First.{rows_of};

use crate::part::Part;
use crate::rows::Rows;
use crate::table::Table;
use crate::{Name, Tags};
use std::alloc::{AllocError, Global};

impl Table {
    /// One number for each tag of a part: 0 where the tag isn't set, 1 where its value isn't
    /// listed. Where a name comes twice the first pair counts.
    pub fn encode(&self, alloc: Global, part: Part, tags: &Tags) -> Result<Vec<u16>, AllocError>
        ensures value { IfOk result (λ v. v.items ≡ tag_numbers (rows_of self.now part) tags.now) }
        ensures fits { IfOk result (λ v. AreNumbersOf (rows_of self.now part) v.items) }
        // What is printed of numbers has these numbers, where each is written by a first spelling.
        ensures reread { let rows = rows_of self.now part in
            (numbers : List ℕ)
            → AreNumbersOf rows numbers
            → AreFirstSpellings rows numbers
            → tags.now ≡ printed_tags rows numbers
            → IfOk result (λ v. v.items ≡ numbers) }
    {
        encoded(alloc, self.rows(part), tags.as_slice())
    }
}

/// The numbers of tags.
fn encoded(alloc: Global, rows: &Rows, tags: &[(Name, Name)]) -> Result<Vec<u16>, AllocError>
    ensures value { IfOk result (λ v. v.items ≡ tag_numbers rows.now tags.now) }
    ensures fits { IfOk result (λ v. AreNumbersOf rows.now v.items) }
    ensures reread { (numbers : List ℕ)
        → AreNumbersOf rows.now numbers
        → AreFirstSpellings rows.now numbers
        → tags.now ≡ printed_tags rows.now numbers
        → IfOk result (λ v. v.items ≡ numbers) }
{
    let mut numbers = vec![in alloc; 0u16; rows.len()]?;
    let mut place = tags.len();
    while place > 0 {
        place -= 1;
        let (name, value) = &tags[place];
        note(rows, &mut numbers, name.as_slice(), value.as_slice());
    }
    Ok(numbers)
}

/// Notes the number of one tag, which counts before those that were noted so far.
fn note(rows: &Rows, numbers: &mut [u16], name: &[u8], value: &[u8])
    requires fits { length numbers.old ≡ length rows.now }
    ensures value { numbers.new ≡ noted rows.now numbers.old name.now value.now }
{
    if let Some(place) = rows.place(name) {
        numbers[place] = rows.tag(place).number(value).unwrap_or(1);
    }
}

//! The tag table and its look-ups.
ghost use Rattle.std.specs.Prelude.{◌≡◌, ◌<◌, ◌^◌, [], IfSome, IsTrue, length, slice_index_or};
ghost use Rattle.item_list.specs.Answer.{Answers};
ghost use Rattle.lookup_table.specs.declared.error.LookupError.TheVariants.{NoMemory};
ghost use Rattle.lookup_table.specs.First.{begins_as, rows_of};
ghost use Rattle.lookup_table.specs.Table.{table_of};
ghost use Rattle.lookup_table.specs.Tag.{AreDistinct, AreSound, empty_tag, names_of, number_in, place_of};

use crate::error::LookupError;
use crate::finish::finished;
use crate::lines::draft_of;
use crate::part::Part;
use crate::rows::Rows;
use std::alloc::Global;
use std::marker::Model;

/// A tag table: the tags of ways and of nodes with their listed values.
///
/// Contracts see it as the two lists of tags.
pub struct Table {
    pub(crate) way: Rows,
    pub(crate) node: Rows,
}

impl Drop for Table {
    fn drop(self) {
        let Table { way: _, node: _ } = self;
    }
}

impl Model for Table {
    ghost use Rattle.std.specs.Prelude.{IsTrue};
    ghost use Rattle.lookup_table.specs.declared.part.Part.TheVariants.{Node, Way};
    ghost use Rattle.lookup_table.specs.First.{TagTable, begins_as};

    ghost Value = { TagTable };

    ghost view = { λ t. record { way = t.way; node = t.node } };

    ghost invariant = { λ t. IsTrue (begins_as Way t.way) × IsTrue (begins_as Node t.node) };
}

impl Table {
    /// The table of a text of fewer than 2^32 bytes, or the first refusal: that of the first line
    /// at fault, then that of the whole.
    pub fn read(alloc: Global, text: &[u8]) -> Result<Table, LookupError>
        requires fits { length text.now < 2 ^ 32 }
        ensures exact { Answers (λ t. t) (table_of text.now) NoMemory result }
    {
        let draft = draft_of(alloc, text)?;
        finished(draft)
    }

    /// How many tags a part has.
    pub fn tags(&self, part: Part) -> u32
        ensures value { result ≡ length (rows_of self.now part) }
        ensures first { IsTrue (begins_as part (rows_of self.now part)) }
        ensures distinct { AreDistinct (names_of (rows_of self.now part)) }
        ensures sound { AreSound (rows_of self.now part) }
    {
        self.rows(part).len() as u32
    }

    /// The place of a tag in its part, from 0.
    pub fn tag_place(&self, part: Part, name: &[u8]) -> Option<u32>
        ensures value { result ≡ place_of (rows_of self.now part) name.now }
        ensures fits { IfSome result (λ place. place < length (rows_of self.now part)) }
    {
        let rows = self.rows(part);
        let _ = rows.len();
        match rows.place(name) {
            None => None,
            Some(place) => Some(place as u32),
        }
    }

    /// The number of a value of the tag at a place, which is in range; nothing where it isn't
    /// listed.
    pub fn value_number(&self, part: Part, tag: u32, value: &[u8]) -> Option<u16>
        requires fits { tag < length (rows_of self.now part) }
        ensures value { let row = slice_index_or (rows_of self.now part) tag (empty_tag []) in
            result ≡ number_in row.numbers value.now }
    {
        self.rows(part).tag(tag as usize).number(value)
    }

    /// The tags of a part.
    pub(crate) fn rows(&self, part: Part) -> &Rows
        ensures value { result.now ≡ rows_of self.now part }
        ensures first { IsTrue (begins_as part result.now) }
    {
        match part {
            Part::Way => &self.way,
            Part::Node => &self.node,
        }
    }
}

//! What the variables and looks of an expression come to.
ghost use Rattle.std.specs.Prelude.{◌≡◌, ◌<◌, length, option_map};
ghost use Rattle.lookup_table.specs.First.{rows_of};
ghost use Rattle.profile_text.specs.Meaning.{is_listed, look_number, looks_in, row_at, value_numbers, variable_in};
ghost use Rattle.profile_values.specs.Scope.{looks_among};

use crate::assigned::Assigned;
use fixed_num::Num;
use item_list::Name;
use lookup_table::{Part, Table};
use std::marker::Model;

/// The tags of a part with the tag numbers of a way or a node.
pub(crate) struct Tagged<'a> {
    table: &'a Table,
    part: Part,
    numbers: &'a [u16],
}

impl<'a> Drop for Tagged<'a> {
    fn drop(self) {
        let Tagged {
            table: _,
            part: _,
            numbers: _,
        } = self;
    }
}

impl<'a> Model for Tagged<'a> {
    ghost use Rattle.std.specs.Prelude.{◌≡◌, length};
    ghost use Rattle.lookup_table.specs.First.{rows_of};
    ghost use Rattle.profile_values.specs.Scope.{TagNumbers};

    ghost Value = { TagNumbers };

    ghost view = { λ t. record { rows = rows_of t.table.now t.part; numbers = t.numbers.now } };

    ghost invariant = { λ t. length t.numbers.now ≡ length (rows_of t.table.now t.part) };
}

impl<'a> Tagged<'a> {
    /// The tags of a part with their numbers.
    pub(crate) fn new(table: &'a Table, part: Part, numbers: &'a [u16]) -> Tagged<'a>
        requires fits { length numbers.now ≡ length (rows_of table.now part) }
        ensures value { result ≡ record { rows = rows_of table.now part; numbers = numbers.now } }
    {
        Tagged {
            table,
            part,
            numbers,
        }
    }

    /// Whether a tag has one of these values, if the tag and each value are known; with no values,
    /// whether it isn't set.
    pub(crate) fn look(&self, tag: &[u8], values: &[Name]) -> Option<bool>
        ensures value { result ≡ looks_in self.now.rows self.now.numbers tag.now values.now }
    {
        let place = self.table.tag_place(self.part, tag)?;
        let number = self.numbers[place as usize];
        if values.is_empty() {
            Some(number == 0)
        } else {
            self.has_one_of(place, number, values)
        }
    }

    /// Whether a number is that of one of these values of the tag at a place, if each of them is
    /// known.
    fn has_one_of(&self, place: u32, number: u16, values: &[Name]) -> Option<bool>
        requires fits { place < length self.now.rows }
        ensures value { let row = row_at self.now.rows place in
            result ≡ option_map (is_listed number) (value_numbers row values.now) }
    {
        let mut found = false;
        'values: for value in values {
            let asked = self.number_of(place, value.as_slice())?;
            found = found || number == asked;
        }
        Some(found)
    }

    /// The number that a value of the tag at a place stands for.
    fn number_of(&self, place: u32, value: &[u8]) -> Option<u16>
        requires fits { place < length self.now.rows }
        ensures value { result ≡ look_number (row_at self.now.rows place) value.now }
    {
        if value == b"unknown".as_slice() {
            Some(1)
        } else {
            self.table.value_number(self.part, place, value)
        }
    }
}

/// What an expression may name: the values of the global section, those of its own section so far,
/// and, unless that is the global one, the tags of a part.
#[derive(Clone, Copy)]
pub(crate) struct Scope<'s, 't> {
    pub(crate) global: &'s Assigned,
    pub(crate) own: &'s Assigned,
    pub(crate) tagged: &'s Tagged<'t>,
    pub(crate) has_looks: bool,
}

impl<'s, 't> Scope<'s, 't> {
    /// The value of a variable, if it is known.
    pub(crate) fn variable(&self, name: &[u8]) -> Option<Num>
        ensures value { result ≡ variable_in self.now.global.now self.now.own.now name.now }
    {
        match self.own.last(name) {
            Some(number) => Some(number),
            None => self.global.last(name),
        }
    }

    /// What a look comes to, if its tag and each value are known.
    pub(crate) fn look(&self, tag: &[u8], values: &[Name]) -> Option<bool>
        ensures value { result
            ≡ looks_among self.now.has_looks self.now.tagged.now tag.now values.now }
    {
        if self.has_looks {
            self.tagged.look(tag, values)
        } else {
            None
        }
    }
}

//! The entries of an object or array, cut off one by one.
ghost use Rattle.std.specs.Prelude.{zero, ◌≡◌, List, [], ◌∷◌, Some, None, MatchOption, option_map, option_to_list};
ghost use Rattle.map_elements.specs.Entries.{begun_entry, entries_from, is_named, member, values_of, whole_entry};
ghost use Rattle.map_elements.specs.Cut.{IsNoKey};

use crate::steps::part::{Part, closes};
use std::marker::Model;

/// A member of an object, or an item of an array.
#[derive(Drop)]
pub(crate) struct Field<'a> {
    name: Option<&'a [u8]>,
    value: Part<'a>,
    is_whole: bool,
}

impl<'a> Model for Field<'a> {
    ghost use Rattle.std.specs.Prelude.{option_map};
    ghost use Rattle.map_elements.specs.Entries.{Entry};

    ghost Value = { Entry };

    ghost view = { λ f.
        record { name = option_map (λ n. n.now) f.name; value = f.value; is_whole = f.is_whole } };
}

/// The entries that are left of an object or array.
#[derive(Drop)]
pub(crate) struct Entries<'a> {
    left: Part<'a>,
}

impl<'a> Model for Entries<'a> {
    ghost use Rattle.std.specs.Prelude.{zero, List, [], None};
    ghost use Rattle.map_elements.specs.Entries.{Entry, entries_from};

    ghost Value = { List Entry };

    ghost view = { λ e. entries_from None [] zero e.left };
}

impl<'a> Field<'a> {
    /// A member of a name, which is whole.
    pub(crate) fn whole(name: &'a [u8], value: Part<'a>) -> Field<'a>
        ensures value { result ≡ whole_entry (Some name.now) value.entry }
    {
        Field {
            name: Some(name),
            value,
            is_whole: true,
        }
    }

    /// Its name, if it is a member of an object.
    pub(crate) fn name(&self) -> Option<&'a [u8]>
        ensures value { option_map (λ n. n.now) result ≡ self.now.name }
    {
        self.name
    }

    /// The steps of its value.
    pub(crate) fn value(&self) -> Part<'a>
        ensures value { result ≡ self.now.value }
    {
        self.value.again()
    }

    /// Whether it is a member of this name.
    pub(crate) fn is_named(&self, name: &[u8]) -> bool
        ensures value { result ≡ is_named name.now self.now }
    {
        match self.name {
            None => false,
            Some(own) => name == own,
        }
    }
}

impl<'a> Entries<'a> {
    /// The same entries again.
    pub(crate) fn again(&self) -> Entries<'a>
        ensures value { result ≡ self.now }
    {
        Entries {
            left: self.left.again(),
        }
    }

    /// The value of the first member of a name.
    pub(crate) fn find(&self, name: &[u8]) -> Option<Part<'a>>
        ensures exact { result ≡ member name.now self.now }
    {
        let mut left = self.again();
        'entries: while let Some(entry) = left.next() {
            if entry.is_named(name) {
                return Some(entry.value());
            }
        }
        None
    }

    /// The entries among the steps behind an opening bracket.
    pub(crate) fn behind(left: Part<'a>) -> Entries<'a>
        ensures value { result ≡ entries_from None [] zero left.entry }
    {
        Entries { left }
    }

    /// The next entry.
    #[inline(always)]
    pub(crate) fn next(&mut self) -> Option<Field<'a>>
        ensures value { MatchOption result
            ((self.old ≡ []) × (self.new ≡ []))
            (λ entry. self.old ≡ entry ∷ self.new) }
    {
        let name = take_names(&mut self.left, None);
        take_entry(&mut self.left, name)
    }

    /// The value of the next entry. Most entries of arrays are numbers.
    #[inline(always)]
    pub(crate) fn next_value(&mut self) -> Option<Part<'a>>
        ensures value { MatchOption result
            ((values_of self.old ≡ []) × (values_of self.new ≡ []))
            (λ value. values_of self.old ≡ value ∷ values_of self.new) }
    {
        if let Some(number) = self.left.take_number() {
            return Some(number);
        }
        match self.next() {
            None => None,
            Some(entry) => Some(entry.value()),
        }
    }
}

/// Takes away the entry whose name has come, if one is left.
pub(crate) fn take_named<'a>(left: &mut Part<'a>, name: &'a [u8]) -> Option<Field<'a>>
    ensures value { let all = entries_from (Some name.now) [] zero left.old in
        MatchOption result
        ((all ≡ []) × (entries_from None [] zero left.new ≡ []))
        (λ entry. all ≡ entry ∷ entries_from None [] zero left.new) }
{
    let last = take_names(left, Some(name));
    take_entry(left, last)
}

/// Takes away the names that stand at the front, and gives the last of them, or else the one that
/// has come before.
fn take_names<'a>(left: &mut Part<'a>, before: Option<&'a [u8]>) -> Option<&'a [u8]>
    ensures names { entries_from (option_map (λ n. n.now) before.entry) [] zero left.old
        ≡ entries_from (option_map (λ n. n.now) result) [] zero left.new }
    ensures others { IsNoKey left.new }
{
    let mut name = before;
    'names: while let Some(text) = left.take_key() {
        name = Some(text);
    }
    name
}

/// Takes away the value at the front, and gives the entry of this name, unless no entry is left.
fn take_entry<'a>(left: &mut Part<'a>, name: Option<&'a [u8]>) -> Option<Field<'a>>
    requires no_name { IsNoKey left.old }
    ensures value { let all = entries_from (option_map (λ n. n.now) name.entry) [] zero left.old in
        MatchOption result
        ((all ≡ []) × (entries_from None [] zero left.new ≡ []))
        (λ entry. all ≡ entry ∷ entries_from None [] zero left.new) }
{
    match left.first_step() {
        None => begun(left.again(), name),
        Some(step) => {
            if closes(step) {
                return None;
            }
            let (size, is_whole) = left.value_size();
            let (value, rest) = left.split(size);
            *left = rest;
            Some(Field {
                name,
                value,
                is_whole,
            })
        }
    }
}

/// The entry of a name that has no value yet.
fn begun<'a>(value: Part<'a>, name: Option<&'a [u8]>) -> Option<Field<'a>>
    requires empty { value ≡ [] }
    ensures value { option_to_list result ≡ begun_entry (option_map (λ n. n.now) name.entry) [] }
{
    match name {
        None => None,
        Some(_) => Some(Field {
            name,
            value,
            is_whole: false,
        }),
    }
}

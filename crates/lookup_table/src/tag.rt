//! A tag of a part with its listed values.
ghost use Rattle.std.specs.Prelude.{◌≡◌, ◌≢◌, ◌<◌, ◌≤◌, ◌+◌, length, [], ◌∷◌, ◌++◌, map, OnOk, OnErr, IfOk, Some, slice_index_or};
ghost use Rattle.lookup_table.specs.Spelled.{spelled};
ghost use Rattle.lookup_table.specs.Tag.{KeepWithin, IsSound, TagRow, first_of, number_in, add_spelling, add_spellings, add_value, empty_tag};
ghost use Rattle.lookup_table.specs.Words.{words_of};

use crate::Name;
use crate::words::next_word;
use indexmap::IndexMap;
use item_list::{Items, bytes_of};
use std::alloc::{AllocError, Global};
use std::marker::Model;

/// A tag with the first spelling of each value, and the number of each spelling.
pub(crate) struct Tag {
    name: Name,
    firsts: Vec<Name>,
    numbers: IndexMap<Vec<u8>, u16>,
}

impl Drop for Tag {
    fn drop(self) {
        let Tag {
            name: _,
            firsts: _,
            numbers: _,
        } = self;
    }
}

impl Model for Tag {
    ghost use Rattle.std.specs.Prelude.{map};
    ghost use Rattle.lookup_table.specs.Spelled.{spelled};
    ghost use Rattle.std.specs.Prelude.{length};
    ghost use Rattle.lookup_table.specs.Tag.{AreWithin, TagRow};

    ghost Value = { TagRow };

    ghost view = { λ t. record {
      name = t.name;
      firsts = t.firsts.items;
      numbers = spelled t.numbers;
    } };

    ghost invariant = { λ t. AreWithin (length t.firsts.items) (spelled t.numbers) };
}

impl Tag {
    /// A tag without values.
    pub(crate) fn new(alloc: Global, name: &[u8]) -> Result<Tag, AllocError>
        ensures value { IfOk result (λ t. t ≡ empty_tag name.now) }
    {
        let name = copied(alloc, name)?;
        Ok(Tag {
            name,
            firsts: Vec::new(alloc),
            numbers: IndexMap::new(alloc),
        })
    }

    /// Its name.
    pub(crate) fn name(&self) -> &[u8]
        ensures value { result.now ≡ self.now.name }
    {
        self.name.as_slice()
    }

    /// How many values it has.
    pub(crate) fn len(&self) -> usize
        ensures value { result ≡ length self.now.firsts }
    {
        self.firsts.len()
    }

    /// The number of a spelling.
    pub(crate) fn number(&self, spelling: &[u8]) -> Option<u16>
        ensures value { result ≡ number_in self.now.numbers spelling.now }
    {
        self.numbers.get(spelling).copied()
    }

    /// The first spelling of the value at a place.
    pub(crate) fn first(&self, place: usize) -> &[u8]
        requires fits { place < length self.now.firsts }
        ensures value { result.now ≡ slice_index_or self.now.firsts place [] }
    {
        self.firsts[place].as_slice()
    }
}

/// A name with these bytes.
pub(crate) fn copied(alloc: Global, bytes: &[u8]) -> Result<Name, AllocError>
    ensures value { IfOk result (λ n. n ≡ bytes.now) }
{
    Ok(Items::from_vec(bytes_of(alloc, bytes)?))
}

impl Tag {
    /// Adds a value by its spellings, which are the words of a text. Where memory runs out, the
    /// name stays.
    pub(crate) fn add_value(&mut self, alloc: Global, spellings: &[u8]) -> Result<(), AllocError>
        requires room { length self.old.firsts < 4096 }
        requires some { words_of spellings.now ≢ [] }
        ensures value { OnOk result (self.new ≡ add_value self.old (words_of spellings.now)) }
        ensures same { self.new.name ≡ self.old.name }
        ensures sound { IsSound self.new }
    {
        let number = self.firsts.len() as u16 + 2;
        add_first(alloc, &mut self.firsts, spellings)?;
        add_spellings(alloc, &mut self.numbers, spellings, number)
    }
}

/// Adds the first of a value's spellings.
fn add_first(alloc: Global, firsts: &mut Vec<Name>, spellings: &[u8]) -> Result<(), AllocError>
    requires some { words_of spellings.now ≢ [] }
    ensures value { let first = first_of (words_of spellings.now) in
        OnOk result (firsts.new.items ≡ firsts.old.items ++ first ∷ []) }
    ensures same { OnErr result (firsts.new.items ≡ firsts.old.items) }
{
    match next_word(spellings) {
        None => Ok(()),
        Some(found) => {
            let (first, _) = found;
            firsts.push(copied(alloc, first)?)?;
            Ok(())
        }
    }
}

/// Gives a number to each of the spellings that has none.
fn add_spellings(
    alloc: Global,
    numbers: &mut IndexMap<Vec<u8>, u16>,
    spellings: &[u8],
    number: u16,
) -> Result<(), AllocError>
    ensures value { let new = add_spellings (spelled numbers.old) number (words_of spellings.now) in
        OnOk result (spelled numbers.new ≡ new) }
    ensures sound { KeepWithin number (spelled numbers.old) (spelled numbers.new) }
{
    let mut rest = spellings;
    while let Some(found) = next_word(rest) {
        let (spelling, after) = found;
        add_spelling(alloc, numbers, spelling, number)?;
        rest = after;
    }
    Ok(())
}

/// Gives a number to a spelling unless it has one.
fn add_spelling(
    alloc: Global,
    numbers: &mut IndexMap<Vec<u8>, u16>,
    spelling: &[u8],
    number: u16,
) -> Result<(), AllocError>
    ensures value { OnOk result
        (spelled numbers.new ≡ add_spelling (spelled numbers.old) number spelling.now) }
    ensures sound { KeepWithin number (spelled numbers.old) (spelled numbers.new) }
{
    if !numbers.contains_key(spelling) {
        numbers.insert(Vec::from_slice(alloc, spelling)?, number)?;
    }
    Ok(())
}

//! The tags of a part, in the order of the file.
ghost use Rattle.std.specs.Prelude.{◌≡◌, ◌≢◌, ◌<◌, ◌≤◌, IfSome, ◌∷◌, ◌++◌, length, [], None, Some, OnOk, IsTrue, slice_get, slice_index_or, slice_set};
ghost use Rattle.lookup_table.specs.Tag.{AreDistinct, AreSound, add_line, add_value, empty_tag, has_room, names_of, place_of};
ghost use Rattle.lookup_table.specs.Words.{words_of};

use crate::tag::Tag;
use indexmap::IndexSet;
use std::alloc::{AllocError, Global};
use std::marker::Model;

/// The most tags of a part.
const MOST_TAGS: usize = 1024;

/// The most values of a tag.
const MOST_VALUES: usize = 4096;

/// The tags of a part. Their names are kept in an index as well.
pub struct Rows {
    names: IndexSet<Vec<u8>>,
    tags: Vec<Tag>,
}

impl Drop for Rows {
    fn drop(self) {
        let Rows { names: _, tags: _ } = self;
    }
}

impl Model for Rows {
    ghost use Rattle.std.specs.Prelude.{List};
    ghost use Rattle.lookup_table.specs.Index.{IsIndexed};
    ghost use Rattle.lookup_table.specs.Tag.{TagRow};

    ghost Value = { List TagRow };

    ghost view = { λ r. r.tags.items };

    ghost invariant = { λ r. IsIndexed r.names.keys r.tags.items };
}

impl Rows {
    /// No tags.
    pub(crate) fn new(alloc: Global) -> Rows
        ensures value { result ≡ [] }
    {
        Rows {
            names: IndexSet::new(alloc),
            tags: Vec::new(alloc),
        }
    }

    /// How many tags there are.
    pub(crate) fn len(&self) -> usize
        ensures value { result ≡ length self.now }
        ensures fits { length self.now ≤ 1024 }
        ensures distinct { AreDistinct (names_of self.now) }
        ensures sound { AreSound self.now }
    {
        self.tags.len()
    }

    /// The tag at a place.
    pub(crate) fn tag(&self, place: usize) -> &Tag
        requires fits { place < length self.now }
        ensures value { slice_get self.now place ≡ Some result.now }
    {
        &self.tags[place]
    }

    /// The place of the tag with a name.
    pub(crate) fn place(&self, name: &[u8]) -> Option<usize>
        ensures value { result ≡ place_of self.now name.now }
        ensures fits { IfSome result (λ i. i < length self.now) }
    {
        self.names.get_index_of(name)
    }

    /// Whether one more line of a tag fits.
    pub(crate) fn has_room(&self, name: &[u8]) -> bool
        ensures value { result ≡ has_room self.now name.now }
    {
        match self.place(name) {
            None => self.len() < MOST_TAGS,
            Some(place) => self.tag(place).len() < MOST_VALUES,
        }
    }

    /// Adds a line's value to the tag that it names, or that tag at the end.
    pub(crate) fn add(
        &mut self,
        alloc: Global,
        name: &[u8],
        spellings: &[u8],
    ) -> Result<(), AllocError>
        requires room { IsTrue (has_room self.old name.now) }
        requires some { words_of spellings.now ≢ [] }
        ensures value { OnOk result
            (self.new ≡ add_line self.old name.now (words_of spellings.now)) }
    {
        match self.place(name) {
            None => self.add_tag(alloc, name, spellings),
            Some(place) => self.add_to(alloc, place, spellings),
        }
    }

    /// Adds a value to the tag at a place.
    fn add_to(&mut self, alloc: Global, place: usize, spellings: &[u8]) -> Result<(), AllocError>
        requires fits { place < length self.old }
        requires room { length (slice_index_or self.old place (empty_tag [])).firsts < 4096 }
        requires some { words_of spellings.now ≢ [] }
        ensures value { let tag = slice_index_or self.old place (empty_tag []) in
            let new = add_value tag (words_of spellings.now) in
            OnOk result (self.new ≡ slice_set self.old place new) }
    {
        self.tags[place].add_value(alloc, spellings)
    }

    /// Adds a tag at the end.
    fn add_tag(&mut self, alloc: Global, name: &[u8], spellings: &[u8]) -> Result<(), AllocError>
        requires room { length self.old < 1024 }
        requires new { place_of self.old name.now ≡ None }
        requires some { words_of spellings.now ≢ [] }
        ensures value { let tag = add_value (empty_tag name.now) (words_of spellings.now) in
            OnOk result (self.new ≡ self.old ++ tag ∷ []) }
    {
        let mut tag = Tag::new(alloc, name)?;
        tag.add_value(alloc, spellings)?;
        let key = Vec::from_slice(alloc, name)?;
        self.tags.push(tag)?;
        match self.names.insert(key) {
            Ok(_) => Ok(()),
            Err(_) => {
                let _ = self.tags.pop();
                Err(AllocError)
            }
        }
    }
}

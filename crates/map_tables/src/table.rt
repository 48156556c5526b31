//! Elements of one kind, each id once, in the order in which the ids came first.

ghost use Rattle.std.specs.Prelude.{◌≡◌, ◌+◌, ◌<◌, ◌≤◌, List, MatchResult, [], ◌∷◌, ◌++◌, length, nat_le, None, OnOk, slice_get, slice_set, Some, IfErr, IfSome};
ghost use Rattle.map_tables.specs.Kept.{AreDistinct, given_again, HoldsAt, keep, Kept, place_of_id, total_of, with_tag};
ghost use Rattle.map_tables.specs.Held.{Becomes};
ghost use Rattle.map_tables.specs.declared.error.MapError.TheVariants as error_;

use crate::content::{Content, Given};
use crate::error::{ElementKind, MapError};
use crate::tag_lists::TagLists;
use indexmap::IndexMap;
use item_list::{Items, Name, Tags, next_number};
use std::alloc::{AllocError, Global};
use std::marker::Model;

/// What is kept with an id: what the element consists of, and the list of its tags.
pub(crate) struct Row<C> {
    pub(crate) content: C,
    pub(crate) list: u32,
}

impl<C: Drop> Drop for Row<C> {
    fn drop(self) {
        let Row {
            content: _,
            list: _,
        } = self;
    }
}

/// Elements of one kind: an index from their ids to their rows, in order, and how many parts all of
/// them have.
pub(crate) struct Table<C: Content> {
    rows: IndexMap<i64, Row<C>>,
    lists: TagLists,
    no_tags: Tags,
    total: u32,
}

impl<C: Content> Drop for Table<C> {
    fn drop(self) {
        let Table {
            rows: _,
            lists: _,
            no_tags: _,
            total: _,
        } = self;
    }
}

impl<C: Content> Model for Table<C> {
    ghost use Rattle.std.specs.Prelude.{List};
    ghost use Rattle.map_tables.specs.Kept.{Kept};

    ghost Value = { List (Kept C) };

    ghost use Rattle.map_tables.specs.Rows.{kept_from, IsTable};

    ghost view = { λ a. kept_from a.lists 0 a.rows.entries };

    ghost invariant = { λ a. IsTable C.size a.lists a.no_tags a.total a.rows.entries };
}

#[tactic(auto, using(crate::proofs::TableLemmas::kept_from_length))]
impl<C: Content> Table<C> {
    /// No elements.
    pub(crate) fn new(alloc: Global) -> Table<C>
        ensures value { result ≡ [] }
    {
        Table {
            rows: IndexMap::new(alloc),
            lists: TagLists::new(alloc),
            no_tags: Items::new(alloc),
            total: 0,
        }
    }

    /// How many elements there are.
    pub(crate) fn len(&self) -> u32
        ensures value { result ≡ length self.now }
        ensures distinct { AreDistinct self.now }
    {
        self.rows.len() as u32
    }

    /// How many parts all elements have.
    pub(crate) fn total(&self) -> u32
        ensures value { result ≡ total_of C.size self.now }
    {
        self.total
    }

    /// The id of the element at a place.
    pub(crate) fn id(&self, place: u32) -> i64
        requires fits { place < length self.now }
        ensures value { HoldsAt self.now place (λ k. result ≡ k.id) }
    {
        id_at(self.rows.keys().as_slice(), place)
    }

    /// What the element at a place consists of.
    pub(crate) fn content(&self, place: u32) -> &C
        requires fits { place < length self.now }
        ensures value { HoldsAt self.now place (λ k. result.now ≡ k.content) }
    {
        &self.rows[place as usize].content
    }

    /// The tags of the element at a place.
    pub(crate) fn tags(&self, place: u32) -> &Tags
        requires fits { place < length self.now }
        ensures value { HoldsAt self.now place (λ k. result.now ≡ k.tags) }
    {
        match self.lists.list(place, self.rows[place as usize].list) {
            None => &self.no_tags,
            Some(tags) => tags,
        }
    }

    /// The place of the element of an id.
    pub(crate) fn find(&self, id: i64) -> Option<u32>
        ensures value { result ≡ place_of_id id self.now }
        ensures fits { IfSome result (λ place. place < length self.now) }
    {
        match self.rows.get_index_of(&id) {
            None => None,
            Some(place) => Some(place as u32),
        }
    }

    /// Puts a tag behind those of the element at a place.
    pub(crate) fn tag(
        &mut self,
        alloc: Global,
        place: u32,
        name: Name,
        value: Name,
    ) -> Result<(), MapError>
        requires fits { place < length self.old }
        ensures value { HoldsAt self.old place (λ k.
            OnOk result (self.new ≡ slice_set self.old place (with_tag (name, value) k))) }
        ensures kept { IfErr result (λ e. (e ≡ error_.NoMemory) × (self.new ≡ self.old)) }
    {
        let list = self.rows[place as usize].list;
        match self.lists.push(alloc, place, list, name, value) {
            Ok(list) => {
                self.rows[place as usize].list = list;
                Ok(())
            }
            Err(_) => Err(MapError::NoMemory),
        }
    }

    /// Adds an element of this kind, or gives the one of its id again. A new one is refused where
    /// it would be one too many.
    pub(crate) fn add<G: Given<C>>(
        &mut self,
        alloc: Global,
        kind: ElementKind,
        id: i64,
        given: &G,
        tags: Tags,
        beyond: Option<MapError>,
    ) -> Result<(), MapError>
        ensures exact { let content : C = G.stands given.now in
            let new : Kept C = record { id = id; content = content; tags = tags } in
            Becomes result self.old self.new
            (keep C.same (error_.DoubleId kind id) beyond new self.old) }
    {
        let _distinct = self.len();
        match self.find(id) {
            Some(place) => {
                if given.is_kept_as(self.content(place)) {
                    self.again(place, tags)
                } else {
                    Err(MapError::DoubleId { kind, id })
                }
            }
            None => match beyond {
                Some(fault) => Err(fault),
                None => self.keep(alloc, id, given, tags),
            },
        }
    }

    /// Gives the element at a place again.
    fn again(&mut self, place: u32, tags: Tags) -> Result<(), MapError>
        requires fits { place < length self.old }
        ensures value { HoldsAt self.old place (λ k.
            OnOk result (self.new ≡ slice_set self.old place (given_again tags k))) }
        ensures kept { IfErr result (λ e. (e ≡ error_.NoMemory) × (self.new ≡ self.old)) }
    {
        let list = self.rows[place as usize].list;
        match self.lists.fill(place, list, tags) {
            Ok(list) => {
                self.rows[place as usize].list = list;
                Ok(())
            }
            Err(_) => Err(MapError::NoMemory),
        }
    }

    /// Puts an element at the end, as it was given.
    fn keep<G: Given<C>>(
        &mut self,
        alloc: Global,
        id: i64,
        given: &G,
        tags: Tags,
    ) -> Result<(), MapError>
        requires new { place_of_id id self.old ≡ None }
        ensures value { let content : C = G.stands given.now in
            OnOk result
            (self.new ≡ self.old ++ record { id = id; content = content; tags = tags } ∷ []) }
        ensures kept { IfErr result (λ e. (e ≡ error_.NoMemory) × (self.new ≡ self.old)) }
    {
        let content = given.keep(alloc)?;
        self.push(id, content, tags)
    }

    /// Puts an element at the end.
    fn push(&mut self, id: i64, content: C, tags: Tags) -> Result<(), MapError>
        requires new { place_of_id id self.old ≡ None }
        ensures value { OnOk result
            (self.new ≡ self.old ++ record { id = id; content = content; tags = tags } ∷ []) }
        ensures kept { IfErr result (λ e. (e ≡ error_.NoMemory) × (self.new ≡ self.old)) }
    {
        let place = next_number(self.rows.len())?;
        let total = total_with(self.total, content.size())?;
        let list = self.lists.add(place, tags)?;
        match self.rows.insert(id, Row { content, list }) {
            Ok(_) => {
                self.total = total;
                Ok(())
            }
            Err(_) => Err(MapError::NoMemory),
        }
    }
}

/// The id at a place.
fn id_at(ids: &[i64], place: u32) -> i64
    requires fits { place < length ids.now }
    ensures value { slice_get ids.now place ≡ Some result }
{
    ids[place as usize]
}

/// A count of 32 bits and so many more. A sum of 2^32 and more is answered as want of memory.
fn total_with(count: u32, more: usize) -> Result<u32, AllocError>
    ensures exact { MatchResult result
        (λ sum. sum ≡ count + more) (λ _. 4294967296 ≤ count + more) }
{
    match u32::try_from(count as u128 + more as u128) {
        Ok(sum) => Ok(sum),
        Err(_) => Err(AllocError),
    }
}

/// Whether a count and so many more are within a limit.
pub(crate) fn are_within(count: u32, more: usize, most: u32) -> bool
    ensures value { result ≡ nat_le (count + more) most }
{
    count as u128 + more as u128 <= most as u128
}

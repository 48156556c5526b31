//! Lists of tags, each of which is one element's.

ghost use Rattle.std.specs.Prelude.{◌≡◌, [], ◌∷◌, ◌++◌, IfOk, IsFalse, IsTrue, MatchOption, OnErr};
ghost use Rattle.map_tables.specs.Kept.{first_tags};
ghost use Rattle.map_tables.specs.Rows.{IsOwn, KeepsOthers, tags_in};

use item_list::{Items, Name, Tags, next_number};
use std::alloc::{AllocError, Global};
use std::marker::Model;

/// What a row names that has no tags: there are never so many lists.
const NO_LIST: u32 = 4_294_967_295;

/// Lists of tags, each with the place of its element. A row names a list by the list's place, and
/// has its tags where the list is that of its own element.
pub(crate) struct TagLists {
    lists: Vec<(u32, Tags)>,
}

impl Drop for TagLists {
    fn drop(self) {
        let TagLists { lists: _ } = self;
    }
}

impl Model for TagLists {
    ghost use Rattle.std.specs.Prelude.{ℕ, ◌<◌, List, length};
    ghost use Rattle.map_tables.specs.Kept.{Tag};

    ghost Value = { List (ℕ × List Tag) };

    ghost view = { λ a. a.lists.items };

    ghost invariant = { λ a. length a.lists.items < 4294967296 };
}

impl TagLists {
    /// No lists.
    pub(crate) fn new(alloc: Global) -> TagLists
        ensures value { result ≡ [] }
    {
        TagLists {
            lists: Vec::new(alloc),
        }
    }

    /// Whether a list is that of the element at a place.
    fn is_own(&self, place: u32, list: u32) -> bool
        ensures yes { IsTrue result → IsOwn self.now place list }
        ensures no { IsFalse result → tags_in self.now place list ≡ [] }
    {
        let list = list as usize;
        if list >= self.lists.len() {
            return false;
        }
        self.lists[list].0 == place
    }

    /// A list, where it is that of the element at a place.
    pub(crate) fn list(&self, place: u32, list: u32) -> Option<&Tags>
        ensures value { MatchOption result (tags_in self.now place list ≡ [])
            (λ tags. tags.now ≡ tags_in self.now place list) }
    {
        if self.is_own(place, list) {
            Some(&self.lists[list as usize].1)
        } else {
            None
        }
    }

    /// Puts the tags of an element at the end, and tells where; no tags are put nowhere.
    pub(crate) fn add(&mut self, place: u32, tags: Tags) -> Result<u32, AllocError>
        ensures value { IfOk result (λ list. tags_in self.new place list ≡ tags) }
        ensures others { KeepsOthers place self.old self.new }
        ensures kept { OnErr result (self.new ≡ self.old) }
    {
        let behind = self.lists.len();
        if tags.len() == 0 {
            return Ok(NO_LIST);
        }
        let list = next_number(behind)?;
        match self.lists.push((place, tags)) {
            Ok(()) => Ok(list),
            Err(_) => Err(AllocError),
        }
    }

    /// Puts a tag behind those of an element, and tells where they are.
    pub(crate) fn push(
        &mut self,
        alloc: Global,
        place: u32,
        list: u32,
        name: Name,
        value: Name,
    ) -> Result<u32, AllocError>
        ensures value { IfOk result (λ next. tags_in self.new place next
            ≡ tags_in self.old place list ++ (name, value) ∷ []) }
        ensures others { KeepsOthers place self.old self.new }
        ensures kept { OnErr result (self.new ≡ self.old) }
    {
        if self.is_own(place, list) {
            self.push_own(place, list, name, value)
        } else {
            let mut tags = Items::new(alloc);
            tags.push((name, value))?;
            self.add(place, tags)
        }
    }

    /// Puts a tag behind the others of a list.
    fn push_own(
        &mut self,
        place: u32,
        list: u32,
        name: Name,
        value: Name,
    ) -> Result<u32, AllocError>
        requires own { IsOwn self.old place list }
        ensures value { IfOk result (λ next. tags_in self.new place next
            ≡ tags_in self.old place list ++ (name, value) ∷ []) }
        ensures others { KeepsOthers place self.old self.new }
        ensures kept { OnErr result (self.new ≡ self.old) }
    {
        let _place = place;
        match self.lists[list as usize].1.push((name, value)) {
            Ok(()) => Ok(list),
            Err(_) => Err(AllocError),
        }
    }

    /// Gives an element tags where it has none, and tells where they are.
    pub(crate) fn fill(&mut self, place: u32, list: u32, tags: Tags) -> Result<u32, AllocError>
        ensures value { IfOk result
            (λ next. tags_in self.new place next ≡ first_tags (tags_in self.old place list) tags) }
        ensures others { KeepsOthers place self.old self.new }
        ensures kept { OnErr result (self.new ≡ self.old) }
    {
        if let Some(own) = self.list(place, list) {
            if own.len() > 0 {
                return Ok(list);
            }
        }
        self.add(place, tags)
    }
}

//! Names that are assigned one after the other.
ghost use Rattle.std.specs.Prelude.{◌≡◌, ◌<◌, ◌^◌, [], ◌∷◌, ◌++◌, length, OnOk, OnErr, IfSome, Some, slice_get};
ghost use Rattle.profile_text.specs.Names.{last_place};

use crate::look::copied;
use indexmap::IndexMap;
use item_list::Name;
use std::alloc::{AllocError, Global};
use std::marker::Model;

/// The names that a section has assigned so far, one for each assignment. The place of each name's
/// last assignment is kept in an index as well.
///
/// Contracts see it as the list of the names.
pub struct Names {
    names: Vec<Name>,
    places: IndexMap<Vec<u8>, u32>,
}

impl Drop for Names {
    fn drop(self) {
        let Names {
            names: _,
            places: _,
        } = self;
    }
}

impl Model for Names {
    ghost use Rattle.std.specs.Prelude.{ℕ, List};
    ghost use Rattle.profile_text.specs.Numbered.{AreNumbered};

    ghost Value = { List (List ℕ) };

    ghost view = { λ n. n.names.items };

    ghost invariant = { λ n. AreNumbered n.names.items n.places.entries };
}

impl Names {
    /// No names.
    pub fn new(alloc: Global) -> Self
        ensures value { result ≡ [] }
    {
        Names {
            names: Vec::new(alloc),
            places: IndexMap::new(alloc),
        }
    }

    /// Puts a name at the end; the 2^32nd is answered as want of memory.
    pub fn push(&mut self, alloc: Global, name: &[u8]) -> Result<(), AllocError>
        ensures value { OnOk result (self.new ≡ self.old ++ name.now ∷ []) }
        ensures same { OnErr result (self.new ≡ self.old) }
    {
        let place = self.len();
        if place == u32::MAX {
            return Err(AllocError);
        }
        let copy = copied(alloc, name)?;
        let key = Vec::from_slice(alloc, name)?;
        self.names.push(copy)?;
        match self.places.insert(key, place) {
            Ok(_) => Ok(()),
            Err(_) => {
                let _ = self.names.pop();
                Err(AllocError)
            }
        }
    }

    /// How many names there are.
    pub fn len(&self) -> u32
        ensures value { result ≡ length self.now }
        ensures fits { length self.now < 2 ^ 32 }
    {
        self.names.len() as u32
    }

    /// The name at a place.
    pub fn name(&self, place: u32) -> &Name
        requires fits { place < length self.now }
        ensures value { slice_get self.now place ≡ Some result.now }
    {
        &self.names[place as usize]
    }

    /// The place of a name's last assignment.
    pub fn last(&self, name: &[u8]) -> Option<u32>
        ensures value { result ≡ last_place self.now name.now }
        ensures fits { IfSome result (λ place. place < length self.now) }
    {
        self.places.get(name).copied()
    }
}

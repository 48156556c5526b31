//! The values that a section has assigned so far.
ghost use Rattle.std.specs.Prelude.{◌≡◌, ◌<◌, ◌^◌, [], ◌∷◌, ◌++◌, length, OnOk, Some, slice_get};
ghost use Rattle.profile_text.specs.Meaning.{last_value};

use fixed_num::Num;
use item_list::Name;
use profile_text::Names;
use std::alloc::{AllocError, Global};
use std::marker::Model;

/// The values that a section has assigned so far, one for each assignment.
///
/// Contracts see it as the list of the names with their values.
pub(crate) struct Assigned {
    names: Names,
    numbers: Vec<Num>,
}

impl Drop for Assigned {
    fn drop(self) {
        let Assigned {
            names: _,
            numbers: _,
        } = self;
    }
}

impl Model for Assigned {
    ghost use Rattle.std.specs.Prelude.{◌≡◌, ℕ, ℤ, List, length};
    ghost use Rattle.std.specs.List.{zip};

    ghost Value = { List (List ℕ × ℤ) };

    ghost view = { λ a. zip a.names a.numbers.items };

    ghost invariant = { λ a. length a.names ≡ length a.numbers.items };
}

impl Assigned {
    /// No values.
    pub(crate) fn new(alloc: Global) -> Self
        ensures value { result ≡ [] }
    {
        Assigned {
            names: Names::new(alloc),
            numbers: Vec::new(alloc),
        }
    }

    /// Puts a name with its value at the end.
    pub(crate) fn push(&mut self, alloc: Global, name: &[u8], number: Num) -> Result<(), AllocError>
        ensures value { OnOk result (self.new ≡ self.old ++ (name.now, number) ∷ []) }
    {
        self.numbers.push(number)?;
        match self.names.push(alloc, name) {
            Ok(()) => Ok(()),
            Err(error) => {
                let _ = self.numbers.pop();
                Err(error)
            }
        }
    }

    /// The value that a name was given last.
    pub(crate) fn last(&self, name: &[u8]) -> Option<Num>
        ensures value { result ≡ last_value self.now name.now }
    {
        let place = self.names.last(name)?;
        Some(self.numbers[place as usize])
    }

    /// How many values there are.
    pub(crate) fn len(&self) -> u32
        ensures value { result ≡ length self.now }
        ensures fits { length self.now < 2 ^ 32 }
    {
        self.names.len()
    }

    /// The name and the value at a place.
    pub(crate) fn at(&self, place: u32) -> (&Name, Num)
        requires fits { place < length self.now }
        ensures value { slice_get self.now place ≡ Some (result.0.now, result.1) }
    {
        (self.names.name(place), self.numbers[place as usize])
    }
}

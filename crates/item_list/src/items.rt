//! A growing list that contracts see as the list of its items.

ghost use Rattle.std.specs.Prelude.{◌≡◌, List, [], ◌∷◌, ◌++◌, length, if◌then◌else◌, is_ok};

use crate::try_clone::TryClone;
use std::alloc::{AllocError, Global};
use std::marker::Model;

/// A list of `T` in the order in which the items were pushed.
#[derive(Drop)]
pub struct Items<T> {
    items: Vec<T>,
}

impl<T> Model for Items<T> {
    ghost use Rattle.std.specs.Prelude.{List};

    ghost Value = { List T };

    ghost view = { λ a. a.items.items };
}

impl<T> Items<T> {
    /// The empty list, which will grow with `alloc`.
    pub fn new(alloc: Global) -> Self
        ensures value { result ≡ [] }
    {
        Items {
            items: Vec::new(alloc),
        }
    }

    /// The list of a vector's items.
    pub fn from_vec(items: Vec<T>) -> Self
        ensures value { result ≡ items.items }
    {
        Items { items }
    }

    /// The vector of the list's items; it takes no memory.
    pub fn into_vec(self) -> Vec<T>
        ensures value { result.items ≡ self }
    {
        self.items
    }

    /// How many items the list has.
    pub fn len(&self) -> usize
        ensures value { result ≡ length self.now }
    {
        self.items.len()
    }

    /// The items as a slice.
    pub fn as_slice(&self) -> &[T]
        ensures value { result.now ≡ self.now }
    {
        self.items.as_slice()
    }
}

impl<T: Drop> Items<T> {
    /// Puts `item` at the end. Where memory runs out, nothing changes.
    pub fn push(&mut self, item: T) -> Result<(), AllocError>
        ensures value { self.new ≡ (if is_ok result then self.old ++ item ∷ [] else self.old) }
    {
        match self.items.push(item) {
            Ok(()) => Ok(()),
            Err(_) => Err(AllocError),
        }
    }
}

impl<T: TryClone + Drop> TryClone for Items<T> {
    fn try_clone(&self, alloc: Global) -> Result<Self, AllocError> {
        let mut copy = Items::new(alloc);
        for item in self.items.iter() {
            let twin = item.try_clone(alloc)?;
            copy.push(twin)?;
        }
        Ok(copy)
    }
}

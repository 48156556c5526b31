//! What the covering test asks: for each slot a front of settled labels.

ghost use Rattle.std.specs.Prelude.{◌≡◌, [], ⊤};

use crate::point::Point;
use item_list::Paged;
use std::alloc::{AllocError, Global};

/// Where the front of a slot stands.
#[derive(Clone, Copy, Drop)]
pub enum Head {
    /// It has no label.
    Empty,
    /// It has one, of this number.
    One(u32),
    /// It stands at this place of the fronts of several labels.
    Many(u32),
}

/// A label of a front: what the covering test asks of it.
pub struct Member<T> {
    pub(crate) cost: u128,
    pub(crate) state: T,
}

/// By hand, since what is derived for a type with parameters is dear to prove.
impl<T: Copy> Clone for Member<T> {
    ghost is_clone = { λ x y. y ≡ x };

    ghost is_infallible = { λ _. ⊤ };

    fn clone(&self) -> Result<Member<T>, AllocError> {
        Ok(*self)
    }
}

impl<T: Copy> Copy for Member<T> {}

/// A part of a front, whose labels lie near each other.
pub struct Block<T> {
    /// Lies under the points of all its labels, so that none of them covers what it doesn't lie
    /// under.
    pub(crate) low: Point,
    /// The points of all its labels lie under this one. It saves time alone.
    pub(crate) high: Point,
    pub(crate) members: Vec<Member<T>>,
}

impl<T: Drop> Drop for Block<T> {
    fn drop(self) {
        let Block {
            low: _,
            high: _,
            members: _,
        } = self;
    }
}

impl<T> Block<T> {
    /// No labels. Its lower point is above all and its upper one below all.
    pub(crate) fn new(alloc: Global) -> Self
        ensures none { result.members.items ≡ [] }
    {
        Block {
            low: Point {
                x: i128::MAX,
                y: i128::MAX,
                z: i128::MAX,
            },
            high: Point {
                x: i128::MIN,
                y: i128::MIN,
                z: i128::MIN,
            },
            members: Vec::new(alloc),
        }
    }
}

/// The fronts of all slots. The labels of one stand side by side, in blocks; a front of one label,
/// as nearly all are, is named by its number and takes no memory of its own.
pub struct Fronts<T> {
    /// For each slot a number that says its head.
    pub(crate) heads: Paged<u32>,
    pub(crate) many: Vec<Vec<Block<T>>>,
    pub(crate) alloc: Global,
}

impl<T: Drop> Drop for Fronts<T> {
    fn drop(self) {
        let Fronts {
            heads: _,
            many: _,
            alloc: _,
        } = self;
    }
}

impl<T> Fronts<T> {
    /// No slots.
    pub(crate) fn new(alloc: Global) -> Self
        ensures heads { result.heads ≡ [] }
        ensures many { result.many.items ≡ [] }
    {
        Fronts {
            heads: Paged::none(alloc, 0),
            many: Vec::new(alloc),
            alloc,
        }
    }
}

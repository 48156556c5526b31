//! The steps of a state as they are listed.

ghost use Rattle.std.specs.Prelude.{◌≡◌, [], ◌∷◌, ◌++◌, OnOk, OnErr, ⊤};

use std::alloc::{AllocError, Global};
use std::marker::Model;

/// A permitted step of a state: its number among the state's steps, the state that it reaches, and
/// what it costs.
pub struct Step<T> {
    pub choice: u32,
    pub state: T,
    pub cost: u128,
}

/// By hand, since what is derived for a type with parameters is dear to prove.
impl<T: Copy> Clone for Step<T> {
    ghost is_clone = { λ x y. y ≡ x };

    ghost is_infallible = { λ _. ⊤ };

    fn clone(&self) -> Result<Step<T>, AllocError> {
        Ok(*self)
    }
}

impl<T: Copy> Copy for Step<T> {}

/// A list of steps that is filled anew for each state. Contracts see it as that list.
///
/// What was listed before stays behind it and is written over, so that putting a step down takes
/// memory only where there never were as many.
pub struct Steps<T> {
    room: Vec<Step<T>>,
    count: usize,
}

impl<T: Drop> Drop for Steps<T> {
    fn drop(self) {
        let Steps { room: _, count: _ } = self;
    }
}

impl<T> Model for Steps<T> {
    ghost use Rattle.std.specs.Prelude.{◌≤◌, List, length, take};
    ghost use Rattle.space_search.specs.declared.step.Step.{Step as One};

    ghost Value = { List (One T) };

    ghost view = { λ s. take s.count s.room.items };

    ghost invariant = { λ s. s.count ≤ length s.room.items };
}

impl<T: Copy + Drop> Steps<T> {
    /// No steps, in a list that will grow with `alloc`.
    pub fn new(alloc: Global) -> Steps<T>
        ensures value { result ≡ [] }
    {
        Steps {
            room: Vec::new(alloc),
            count: 0,
        }
    }

    /// Takes all steps away. The list keeps its room.
    pub fn clear(&mut self)
        ensures value { self.new ≡ [] }
    {
        self.count = 0;
    }

    /// The steps, in the order in which they were put down.
    pub fn as_slice(&self) -> &[Step<T>]
        ensures value { result.now ≡ self.now }
    {
        &self.room[..self.count]
    }

    /// Puts a step at the end.
    #[inline(always)]
    pub fn put(&mut self, step: Step<T>) -> Result<(), AllocError>
        ensures value { OnOk result (self.new ≡ self.old ++ step ∷ []) }
        ensures same { OnErr result (self.new ≡ self.old) }
    {
        if self.count == self.room.len() {
            make_room(&mut self.room, step)?;
        } else {
            self.room[self.count] = step;
        }
        self.count += 1;
        Ok(())
    }
}

/// Makes room for one more step at the end, with that step in it. Where memory runs out, nothing
/// changes. That comes to pass seldom, so it stands apart.
#[cold]
#[inline(never)]
fn make_room<T: Copy + Drop>(room: &mut Vec<Step<T>>, step: Step<T>) -> Result<(), AllocError>
    ensures value { OnOk result (room.new.items ≡ room.old.items ++ step ∷ []) }
    ensures same { OnErr result (room.new.items ≡ room.old.items) }
{
    match room.push(step) {
        Ok(()) => Ok(()),
        Err(_) => Err(AllocError),
    }
}

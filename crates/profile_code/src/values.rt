//! The values that a run sets.
ghost use Rattle.std.specs.Prelude.{◌≡◌, ◌<◌, ◌≤◌, [], ◌∷◌, ◌++◌, length, IfOk};

use fixed_num::Num;
use std::alloc::{AllocError, Global};
use std::marker::Model;

/// The values of a section's assignments in order, with room from the start.
#[derive(Drop)]
pub(crate) struct Values {
    items: Vec<Num>,
}

impl Model for Values {
    ghost use Rattle.std.specs.Prelude.{vec_capacity};
    ghost use Rattle.profile_code.specs.Held.{Held};

    ghost Value = { Held };

    ghost view = { λ v. record { numbers = v.items.items; room = vec_capacity v.items } };
}

impl Values {
    /// No values, with room for so many.
    pub(crate) fn with_room(alloc: Global, room: usize) -> Result<Values, AllocError>
        ensures value { IfOk result (λ v. v ≡ record { numbers = []; room = room }) }
    {
        Ok(Values {
            items: Vec::with_capacity(alloc, room)?,
        })
    }

    /// Takes all values out.
    pub(crate) fn clear(&mut self)
        ensures value { self.new ≡ record self.old { numbers = [] } }
    {
        self.items.clear();
    }

    /// Puts a value at the end.
    pub(crate) fn push(&mut self, number: Num)
        requires room { length self.old.numbers < self.old.room }
        ensures value { self.new ≡ record self.old { numbers = self.old.numbers ++ number ∷ [] } }
    {
        self.items.push_reserved(number);
    }

    /// The values.
    pub(crate) fn as_slice(&self) -> &[Num]
        ensures value { result.now ≡ self.now.numbers }
        ensures fits { length result.now ≤ self.now.room }
    {
        self.items.as_slice()
    }
}

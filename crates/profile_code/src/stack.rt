//! The stack of a run.
ghost use Rattle.std.specs.Prelude.{◌≡◌, ◌<◌, [], ◌∷◌, length, IfOk};

use fixed_num::Num;
use std::alloc::{AllocError, Global};
use std::marker::Model;

/// A stack of numbers with room from the start. Contracts see its top first.
#[derive(Drop)]
pub(crate) struct Stack {
    items: Vec<Num>,
}

impl Model for Stack {
    ghost use Rattle.std.specs.Prelude.{reverse, vec_capacity};
    ghost use Rattle.profile_code.specs.Held.{Held};

    ghost Value = { Held };

    ghost view = { λ s. record { numbers = reverse s.items.items; room = vec_capacity s.items } };
}

impl Stack {
    /// An empty stack with room for so many numbers.
    pub(crate) fn with_room(alloc: Global, room: usize) -> Result<Stack, AllocError>
        ensures value { IfOk result (λ s. s ≡ record { numbers = []; room = room }) }
    {
        Ok(Stack {
            items: Vec::with_capacity(alloc, room)?,
        })
    }

    /// Takes all numbers off.
    pub(crate) fn clear(&mut self)
        ensures value { self.new ≡ record self.old { numbers = [] } }
    {
        self.items.clear();
    }

    /// Puts a number on top.
    pub(crate) fn push(&mut self, number: Num)
        requires room { length self.old.numbers < self.old.room }
        ensures value { self.new ≡ record self.old { numbers = number ∷ self.old.numbers } }
    {
        self.items.push_reserved(number);
    }

    /// Takes the top off.
    pub(crate) fn pop(&mut self) -> Num
        requires some { 0 < length self.old.numbers }
        ensures value { self.old ≡ record self.new { numbers = result ∷ self.new.numbers } }
        ensures fits { length self.new.numbers < self.new.room }
    {
        self.items.pop().unwrap()
    }
}

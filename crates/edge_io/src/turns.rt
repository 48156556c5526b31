//! Who is next in turn.

ghost use Rattle.std.specs.Prelude.{◌≡◌, ◌<◌, ◌≤◌, true, [], ◌∷◌, ◌++◌, length, MatchOption, OnOk, if◌then◌else◌};
ghost use Rattle.edge_io.specs.Peers.{without};

use std::alloc::{AllocError, Global};
use std::collections::VecDeque;
use std::marker::Model;

/// Numbers in line. Whoever is served goes to the end, so that each comes before any comes twice.
#[derive(Drop)]
pub struct Turns {
    line: VecDeque<u64>,
}

impl Model for Turns {
    ghost use Rattle.std.specs.VecDeque.{deque_capacity};
    ghost use Rattle.edge_io.specs.Peers.{Line};

    ghost Value = { Line };

    ghost view = { λ s. record { waiting = s.line.items; room = deque_capacity s.line } };
}

impl Turns {
    /// A line in which no one waits.
    pub fn new(alloc: Global) -> Turns
        ensures value { result.waiting ≡ [] }
    {
        Turns {
            line: VecDeque::new(alloc),
        }
    }

    /// How many wait.
    pub fn len(&self) -> usize
        ensures value { result ≡ length self.now.waiting }
    {
        self.line.len()
    }

    /// Keeps memory for as many in line at a time, so that each of them can be put there.
    pub fn make_room(&mut self, count: usize) -> Result<(), AllocError>
        ensures same { self.new.waiting ≡ self.old.waiting }
        ensures room { OnOk result (count ≤ self.new.room) }
        ensures kept { self.old.room ≤ self.new.room }
    {
        let more = count.saturating_sub(self.line.len());
        self.line.reserve(more)
    }

    /// Puts a number at the end of the line; where there is no memory, it isn't in line.
    pub fn join(&mut self, id: u64) -> bool
        ensures value { self.new.waiting ≡
            (if result then self.old.waiting ++ id ∷ [] else self.old.waiting) }
        ensures fits { length self.old.waiting < self.old.room → result ≡ true }
        ensures kept { self.old.room ≤ self.new.room }
    {
        self.line.push_back(id).is_ok()
    }

    /// Takes the first out of the line, if one waits.
    pub fn take(&mut self) -> Option<u64>
        ensures exact { MatchOption result
            ((self.old.waiting ≡ []) × (self.new.waiting ≡ []))
            (λ id. self.old.waiting ≡ id ∷ self.new.waiting) }
        ensures kept { self.new.room ≡ self.old.room }
    {
        self.line.pop_front()
    }

    /// Takes a number out of the line, wherever it stands.
    pub fn leave(&mut self, id: u64)
        ensures value { self.new.waiting ≡ without id self.old.waiting }
        ensures kept { self.new.room ≡ self.old.room }
    {
        self.line.retain(|waiting| *waiting != id);
    }
}

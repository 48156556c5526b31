//! How far a search is.

ghost use Rattle.std.specs.Prelude.{◌≡◌};
ghost use Rattle.space_search.specs.View.{phase_after};

use crate::outcome::Outcome;
use item_list::Turn;

/// How far a search is.
#[derive(Clone, Copy)]
pub enum Phase {
    /// No turn was made.
    New,
    /// The last turn answered that the search goes on.
    Running,
    /// The search is at its end, so.
    Ended(Outcome<u32>),
    /// A turn met want of memory.
    Failed,
}

/// How far a search is after this turn.
pub(crate) fn after_turn(turn: Turn<(), Outcome<u32>>) -> Phase
    ensures value { result ≡ phase_after turn }
{
    match turn {
        Turn::More(_) => Phase::Running,
        Turn::Done(end) => Phase::Ended(end),
    }
}

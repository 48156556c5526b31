//! A least run over a space, found in turns.

ghost use Rattle.std.specs.Prelude.{ℕ, ◌≡◌, ◌<◌, ◌≤◌, ◌*◌, ◌^◌, IfOk};
ghost use Rattle.space_search.specs.Limits.{HasFewPerCell, IsUnspent};
ghost use Rattle.space_search.specs.Outcome.{Answers};

use crate::outcome::{Outcome, Run};
use crate::search::Search;
use crate::space::Space;
use item_list::Turn;
use std::alloc::{AllocError, Global};

/// How many labels one turn of `least` settles at most.
const QUOTA: u32 = 1048576;

/// A run of least cost from a start to a goal, or that no run reaches a goal, or that `limit`
/// labels are settled and one more would be. `bounds` is what is kept of the space's lower bounds.
pub fn least<S: Space>(
    alloc: Global,
    space: &S,
    bounds: &mut S::Bounds,
    limit: u64,
) -> Result<Outcome<Run>, AllocError>
    requires small { limit < 2 ^ 32 }
    requires bounds { S.AreBounds space.now bounds.old }
    ensures answers { IfOk result (λ outcome. Answers (S.rules space.now) limit outcome) }
    ensures enough { (most : ℕ) → HasFewPerCell (S.rules space.now) most →
        (S.rules space.now).cells * most ≤ limit → IfOk result IsUnspent }
{
    let mut search: Search<S::State> = Search::new(alloc, limit);
    'search: loop {
        match search.turn(space, bounds, QUOTA)? {
            Turn::More(_) => {}
            Turn::Done(end) => return search.outcome(alloc, end),
        }
    }
}

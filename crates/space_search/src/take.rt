//! One label is taken from the queue, and as many as a turn is given.

ghost use Rattle.std.specs.Prelude.{◌≡◌, ◌≤◌, ◌<◌, ◌^◌, IfOk, length};
ghost use Rattle.space_search.specs.Books.{books, IsSearch, IsClosed, Leaves};
ghost use Rattle.space_search.specs.Moves.{Takes};
ghost use Rattle.space_search.specs.Searches.{Turns, held_after};

use crate::lists::Lists;
use crate::next::next;
use crate::offer::is_covered;
use crate::outcome::Outcome;
use crate::settle::{advance, drop_next, settle_next};
use crate::space::Space;
use crate::step::Steps;
use item_list::Turn;
use std::alloc::AllocError;

/// What was done with the next label.
#[derive(Clone, Copy)]
pub enum Taken {
    /// A settled label covers it.
    Dropped,
    /// It is settled, and its steps were offered.
    Settled,
    /// It is a goal, and has this number.
    Goal(u32),
    /// Nothing waits.
    Empty,
    /// It would be settled, but as many labels are as the limit allows.
    Spent,
}

/// Takes the next label from the queue: it is dropped, or it is settled and its steps are offered.
/// Where it is a goal, or the limit is spent, or nothing waits, the queue stays as it is.
pub(crate) fn take<T: Copy + Drop, S: Space<State = T>>(
    space: &S,
    bounds: &mut S::Bounds,
    lists: &mut Lists<T>,
    steps: &mut Steps<T>,
    limit: u64,
) -> Result<Taken, AllocError>
    requires bounds { S.AreBounds space.now bounds.old }
    requires kept { IsSearch (S.rules space.now) (books lists.old) }
    requires closed { IsClosed (S.rules space.now) (books lists.old) }
    requires small { limit < 2 ^ 32 }
    requires within { length (books lists.old).settled ≤ limit }
    ensures takes { IfOk result (λ taken.
        Takes (S.rules space.now) limit (books lists.old) (books lists.new) taken) }
    ensures leaves { Leaves (S.rules space.now) (books lists.old) (books lists.new) }
    ensures fits { length (books lists.new).settled ≤ limit }
    ensures bounds { S.AreBounds space.now bounds.new }
{
    let Some(number) = next(space, lists) else {
        return Ok(Taken::Empty);
    };
    let label = lists.labels[number as usize];
    if space.goal(&label.state) {
        return Ok(Taken::Goal(number));
    }
    if is_covered(space, lists, &label.state, label.cost) {
        drop_next(space, lists, number, label);
        return Ok(Taken::Dropped);
    }
    if lists.settled.len() as u64 == limit {
        return Ok(Taken::Spent);
    }
    settle_next(space, lists, number, &label)?;
    advance(space, bounds, lists, steps, &label)?;
    Ok(Taken::Settled)
}

/// Takes labels until as many are settled as the quota says, or the search is at its end; with the
/// number of the goal's label, where one was found.
pub(crate) fn take_many<T: Copy + Drop, S: Space<State = T>>(
    space: &S,
    bounds: &mut S::Bounds,
    lists: &mut Lists<T>,
    steps: &mut Steps<T>,
    limit: u64,
    quota: u32,
) -> Result<(Turn<(), Outcome<u32>>, u32), AllocError>
    requires bounds { S.AreBounds space.now bounds.old }
    requires kept { IsSearch (S.rules space.now) (books lists.old) }
    requires closed { IsClosed (S.rules space.now) (books lists.old) }
    requires small { limit < 2 ^ 32 }
    requires within { length (books lists.old).settled ≤ limit }
    ensures turns { IfOk result (λ answer. Turns (S.rules space.now) quota (books lists.old)
        (held_after limit (books lists.new) answer) answer.0) }
    ensures leaves { Leaves (S.rules space.now) (books lists.old) (books lists.new) }
    ensures fits { length (books lists.new).settled ≤ limit }
    ensures bounds { S.AreBounds space.now bounds.new }
{
    let mut count = 0;
    'turn: while count < quota {
        match take(space, bounds, lists, steps, limit)? {
            Taken::Dropped => {}
            Taken::Settled => count += 1,
            Taken::Goal(number) => {
                let label = lists.settled.len() as u32;
                return Ok((Turn::Done(Outcome::Found(label)), number));
            }
            Taken::Empty => return Ok((Turn::Done(Outcome::NoWay), 0)),
            Taken::Spent => return Ok((Turn::Done(Outcome::Budget), 0)),
        }
    }
    Ok((Turn::More(()), 0))
}

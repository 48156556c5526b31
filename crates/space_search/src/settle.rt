//! The next label leaves the queue: it is dropped, or it is settled and its steps are offered.

ghost use Rattle.std.specs.Prelude.{◌≡◌, ◌+◌, ◌-◌, ◌<◌, ◌≤◌, ◌^◌, false, OnOk, length};
ghost use Rattle.space_search.specs.Books.{books, IsSearch, IsClosed, IsCovered, IsUncovered, IsSettled, HasStarts, HasStepsBelow, Leaves};
ghost use Rattle.space_search.specs.Moves.{IsNext, Drops, Settles, Advances};

use crate::join::join;
use crate::known::Known;
use crate::label::Label;
use crate::lists::Lists;
use crate::offer::offer;
use crate::space::Space;
use crate::step::Steps;
use std::alloc::AllocError;

/// Takes the next label from the queue, where a settled label covers it.
pub(crate) fn drop_next<T: Copy + Drop, S: Space<State = T>>(
    _space: &S,
    lists: &mut Lists<T>,
    _number: u32,
    _label: Label<T>,
)
    requires kept { IsSearch (S.rules _space.now) (books lists.old) }
    requires closed { IsClosed (S.rules _space.now) (books lists.old) }
    requires next { IsNext (S.rules _space.now) (books lists.old) _number _label }
    requires covered { IsCovered (S.rules _space.now) (books lists.old) _label.state _label.cost }
    ensures drops { Drops (S.rules _space.now) (books lists.old) (books lists.new) }
{
    lists.queue.pop();
}

/// Takes the next label, which is no goal and which no settled label covers, from the queue, and
/// puts it behind the settled ones and into the front of its slot. What it supersedes leaves that.
pub(crate) fn settle_next<T: Copy + Drop, S: Space<State = T>>(
    space: &S,
    lists: &mut Lists<T>,
    number: u32,
    label: &Label<T>,
) -> Result<(), AllocError>
    requires kept { IsSearch (S.rules space.now) (books lists.old) }
    requires closed { IsClosed (S.rules space.now) (books lists.old) }
    requires next { IsNext (S.rules space.now) (books lists.old) number label.now }
    requires no_goal { (S.rules space.now).is_goal label.now.state ≡ false }
    requires uncovered { IsUncovered (S.rules space.now) (books lists.old) label.now.state label.now.cost }
    requires room { length (books lists.old).settled + 1 < 2 ^ 32 }
    ensures settles { OnOk result (Settles (S.rules space.now) (books lists.old)
        (books lists.new) number label.now) }
    ensures leaves { Leaves (S.rules space.now) (books lists.old) (books lists.new) }
    ensures most { length (books lists.new).settled ≤ length (books lists.old).settled + 1 }
{
    let slot = space.slot(&label.state) as usize;
    join(space, &lists.labels, &mut lists.fronts, slot, number, label)?;
    match lists.settled.push(number) {
        Ok(()) => {}
        Err(_) => return Err(AllocError),
    }
    lists.queue.pop();
    Ok(())
}

/// Offers what the steps of the newest settled label give, which are put down in a list for that,
/// but for some that settled labels cover.
pub(crate) fn advance<T: Copy + Drop, S: Space<State = T>>(
    space: &S,
    bounds: &mut S::Bounds,
    lists: &mut Lists<T>,
    steps: &mut Steps<T>,
    label: &Label<T>,
) -> Result<(), AllocError>
    requires bounds { S.AreBounds space.now bounds.old }
    requires kept { IsSearch (S.rules space.now) (books lists.old) }
    requires starts { HasStarts (S.rules space.now) (books lists.old) (S.rules space.now).starts }
    requires steps { HasStepsBelow (S.rules space.now) (books lists.old)
        (length (books lists.old).settled - 1) }
    requires now { IsSettled (books lists.old) (length (books lists.old).settled - 1) label.now }
    ensures advances { OnOk result
        (Advances (S.rules space.now) (books lists.old) (books lists.new)) }
    ensures leaves { Leaves (S.rules space.now) (books lists.old) (books lists.new) }
    ensures settled { (books lists.new).settled ≡ (books lists.old).settled }
    ensures bounds { S.AreBounds space.now bounds.new }
{
    let parent = lists.settled.len() as u32;
    let known = Known {
        labels: &lists.labels,
        fronts: &lists.fronts,
    };
    space.list_steps(&label.state, label.cost, &known, steps)?;
    'steps: for step in steps.as_slice() {
        let reached = Label {
            cost: label.cost + step.cost,
            state: step.state,
            parent,
            choice: step.choice,
        };
        offer(space, bounds, lists, reached)?;
    }
    Ok(())
}

//! A new label is queued, unless that is needless.

ghost use Rattle.std.specs.Prelude.{◌≡◌, ◌<◌, [], ◌∷◌, ◌++◌, IsTrue, OnErr, OnOk, false, length};
ghost use Rattle.space_search.specs.Blocks.{members_of, HaveFloors};
ghost use Rattle.space_search.specs.Books.{books, IsSearch, Follows, IsCovered, IsUncovered, IsLater, RanksAbove, Leaves};
ghost use Rattle.space_search.specs.Fronts.{FitTest};
ghost use Rattle.space_search.specs.Moves.{Offers};
ghost use Rattle.space_search.specs.Laws.{HasRank};
ghost use Rattle.space_search.specs.Rules.{LOW_BOUND};
ghost use Rattle.space_search.specs.declared.fronts.Member.{Member};
ghost use Rattle.std.specs.List.{Contains};

use crate::fronts::{Block, Head, Member};
use crate::heads::head_at;
use crate::label::Label;
use crate::lists::Lists;
use crate::space::Space;
use item_list::next_number;
use std::alloc::AllocError;

/// Whether a settled label covers the state at this cost, which ranks no less than any of them.
/// Those that left their slot's front needn't be tested. Most fronts are empty, so that is seen in
/// place.
#[inline(always)]
pub(crate) fn is_covered<T: Copy + Drop, S: Space<State = T>>(
    space: &S,
    lists: &Lists<T>,
    state: &T,
    cost: u128,
) -> bool
    requires later { IsLater (S.rules space.now) (books lists.now) state.now cost }
    requires small { cost < LOW_BOUND }
    requires kept { IsSearch (S.rules space.now) (books lists.now) }
    ensures covered { IsTrue result →
        IsCovered (S.rules space.now) (books lists.now) state.now cost }
    ensures uncovered { result ≡ false →
        IsUncovered (S.rules space.now) (books lists.now) state.now cost }
{
    let slot = space.slot(state);
    match head_at(&lists.fronts.heads, slot as usize) {
        Head::Empty => false,
        Head::One(number) => {
            let label = &lists.labels[number as usize];
            space.covers(&label.state, label.cost, state, cost)
        }
        Head::Many(front) => {
            is_covered_by_front(space, &lists.fronts.many[front as usize], state, cost)
        }
    }
}

/// Whether a label of a front covers the state at this cost. Blocks in which none can are passed
/// over.
fn is_covered_by_front<T: Copy + Drop, S: Space<State = T>>(
    space: &S,
    front: &Vec<Block<T>>,
    state: &T,
    cost: u128,
) -> bool
    requires valid { IsTrue ((S.rules space.now).is_valid state.now) }
    requires small { cost < LOW_BOUND }
    requires each { FitTest (S.rules space.now) (members_of front.now.items) }
    requires floors { HaveFloors (S.rules space.now) front.now.items }
    ensures covered { IsTrue result →
        (one : Member T) × Contains (members_of front.now.items) one ×
        IsTrue ((S.rules space.now).covers one.state one.cost state.now cost) }
    ensures uncovered { result ≡ false →
        (one : Member T) → Contains (members_of front.now.items) one →
        (S.rules space.now).covers one.state one.cost state.now cost ≡ false }
{
    let point = space.point(state, cost);
    'parts: for block in front.as_slice() {
        if block.low.is_under(&point) && is_covered_by_block(space, &block.members, state, cost) {
            return true;
        }
    }
    false
}

/// Whether one of these labels covers the state at this cost.
fn is_covered_by_block<T: Copy + Drop, S: Space<State = T>>(
    space: &S,
    members: &Vec<Member<T>>,
    state: &T,
    cost: u128,
) -> bool
    requires valid { IsTrue ((S.rules space.now).is_valid state.now) }
    requires small { cost < LOW_BOUND }
    requires each { FitTest (S.rules space.now) members.now.items }
    ensures covered { IsTrue result → (one : Member T) × Contains members.now.items one ×
        IsTrue ((S.rules space.now).covers one.state one.cost state.now cost) }
    ensures uncovered { result ≡ false → (one : Member T) → Contains members.now.items one →
        (S.rules space.now).covers one.state one.cost state.now cost ≡ false }
{
    'members: for one in members.as_slice() {
        if space.covers(&one.state, one.cost, state, cost) {
            return true;
        }
    }
    false
}

/// Puts a new label into the queue, unless no goal is reached from it or a settled label covers it.
/// A search does this for each step, so it is put in place there.
#[inline(always)]
pub(crate) fn offer<T: Copy + Drop, S: Space<State = T>>(
    space: &S,
    bounds: &mut S::Bounds,
    lists: &mut Lists<T>,
    label: Label<T>,
) -> Result<(), AllocError>
    requires bounds { S.AreBounds space.now bounds.old }
    requires kept { IsSearch (S.rules space.now) (books lists.old) }
    requires follows { let kept = books lists.old in
        Follows (S.rules space.now) kept (length kept.settled) label }
    requires above { RanksAbove (S.rules space.now) (books lists.old) label.state label.cost }
    ensures offers { OnOk result (Offers (S.rules space.now) (books lists.old)
        (books lists.new) label) }
    ensures leaves { Leaves (S.rules space.now) (books lists.old) (books lists.new) }
    ensures settled { (books lists.new).settled ≡ (books lists.old).settled }
    ensures bounds { S.AreBounds space.now bounds.new }
{
    let told = space.low(bounds, &label.state)?;
    let Some(low) = told else {
        return Ok(());
    };
    if is_covered(space, lists, &label.state, label.cost) {
        return Ok(());
    }
    enqueue(space, lists, label, label.cost + low)
}

/// Puts a new label into the queue at its rank.
fn enqueue<T: Copy + Drop, S: Space<State = T>>(
    _space: &S,
    lists: &mut Lists<T>,
    label: Label<T>,
    rank: u128,
) -> Result<(), AllocError>
    requires kept { IsSearch (S.rules _space.now) (books lists.old) }
    requires follows { let kept = books lists.old in
        Follows (S.rules _space.now) kept (length kept.settled) label }
    requires above { RanksAbove (S.rules _space.now) (books lists.old) label.state label.cost }
    requires ranked { HasRank (S.rules _space.now) label.state label.cost rank }
    ensures offers { OnOk result (Offers (S.rules _space.now) (books lists.old)
        (books lists.new) label) }
    ensures leaves { Leaves (S.rules _space.now) (books lists.old) (books lists.new) }
    ensures settled { (books lists.new).settled ≡ (books lists.old).settled }
{
    let number = next_number(lists.labels.len())?;
    add_label(&mut lists.labels, label)?;
    lists.queue.push(rank, number)
}

/// Puts a label behind those that were made. All spaces with one kind of state share it, so that
/// the call for memory stands in one place.
fn add_label<T: Copy + Drop>(labels: &mut Vec<Label<T>>, label: Label<T>) -> Result<(), AllocError>
    ensures value { OnOk result (labels.new.items ≡ labels.old.items ++ label ∷ []) }
    ensures same { OnErr result (labels.new.items ≡ labels.old.items) }
{
    match labels.push(label) {
        Ok(()) => Ok(()),
        Err(_) => Err(AllocError),
    }
}

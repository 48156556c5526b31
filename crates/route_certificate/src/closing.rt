//! Whether a list of labels is closed below a cost.

ghost use Rattle.std.specs.Prelude.{◌↔◌, ◌<◌, IfOk, IsTrue};
ghost use Rattle.bike_space.specs.Closed.{IsCoveredBelow, IsDear};
ghost use Rattle.space_search.specs.Rules.{LOW_BOUND};
ghost use Rattle.route_certificate.specs.Index.{IsIndex};
ghost use Rattle.route_certificate.specs.Closing.{ClosesGoals, ClosesStarts, ClosesSteps, ClosesStepsOf, IsFirstFlaw, IsNoCheapGoal};
ghost use Rattle.route_certificate.specs.Entries.{AreBounded, IsBounded, labels_of};

use crate::entries::carry;
use crate::index::{Index, index_of, is_covered};
use crate::verdict::Why;
use bike_space::TellsRests;
use certificate_text::Entry;
use cost_model::Carry;
use std::alloc::{AllocError, Global};

/// The first part of a closed list that fails, if any does: starts, steps, goals.
pub(crate) fn first_flaw<S: TellsRests<State = Carry>>(
    alloc: Global,
    space: &S,
    entries: &[Entry],
    least: u128,
) -> Result<Option<Why>, AllocError>
    requires bounded { AreBounded (S.rules space.now) entries.now }
    ensures exact { IfOk result (IsFirstFlaw (S.rules space.now) least entries.now) }
{
    let index = index_of(alloc, space, entries)?;
    if !closes_starts(space, entries, &index, least) {
        return Ok(Some(Why::Start));
    }
    if !closes_steps(space, entries, &index, least) {
        return Ok(Some(Why::Step));
    }
    if !closes_goals(space, entries, least) {
        return Ok(Some(Why::Goal));
    }
    Ok(None)
}

/// Whether a label covers a state at a cost, or it ranks at least so much.
fn is_covered_or_dear<S: TellsRests<State = Carry>>(
    space: &S,
    entries: &[Entry],
    index: &Index,
    least: u128,
    state: &Carry,
    cost: u128,
) -> bool
    requires bounded { AreBounded (S.rules space.now) entries.now }
    requires index { IsIndex (S.rules space.now) entries.now index.now }
    requires valid { IsTrue ((S.rules space.now).is_valid state.now) }
    requires small { cost < LOW_BOUND }
    ensures exact { IsTrue result ↔
        IsCoveredBelow (S.rules space.now) least (labels_of entries.now) state.now cost }
{
    is_dear(space, least, state, cost) || is_covered(space, entries, index, state, cost)
}

/// Whether a state at a cost ranks at least so much: with what still has to be paid, or where no
/// goal is reached from it.
fn is_dear<S: TellsRests<State = Carry>>(space: &S, least: u128, state: &Carry, cost: u128) -> bool
    requires valid { IsTrue ((S.rules space.now).is_valid state.now) }
    requires small { cost < LOW_BOUND }
    ensures exact { IsTrue result ↔ IsDear (S.rules space.now) least state.now cost }
{
    match space.rest(state) {
        Some(rest) => cost + rest >= least,
        None => true,
    }
}

/// Whether what each start gives is covered or dear.
fn closes_starts<S: TellsRests<State = Carry>>(
    space: &S,
    entries: &[Entry],
    index: &Index,
    least: u128,
) -> bool
    requires bounded { AreBounded (S.rules space.now) entries.now }
    requires index { IsIndex (S.rules space.now) entries.now index.now }
    ensures exact { IsTrue result ↔ ClosesStarts (S.rules space.now) least entries.now }
{
    'starts: for number in 0..space.starts() {
        if let Some((state, cost)) = space.start(number) {
            if !is_covered_or_dear(space, entries, index, least, &state, cost) {
                return false;
            }
        }
    }
    true
}

/// Whether what each step of each label gives is covered or dear.
fn closes_steps<S: TellsRests<State = Carry>>(
    space: &S,
    entries: &[Entry],
    index: &Index,
    least: u128,
) -> bool
    requires bounded { AreBounded (S.rules space.now) entries.now }
    requires index { IsIndex (S.rules space.now) entries.now index.now }
    ensures exact { IsTrue result ↔ ClosesSteps (S.rules space.now) least entries.now }
{
    'entries: for place in 0..entries.len() {
        if !closes_steps_of(space, entries, index, least, &entries[place]) {
            return false;
        }
    }
    true
}

/// Whether what each step of a label gives is covered or dear.
fn closes_steps_of<S: TellsRests<State = Carry>>(
    space: &S,
    entries: &[Entry],
    index: &Index,
    least: u128,
    entry: &Entry,
) -> bool
    requires bounded { AreBounded (S.rules space.now) entries.now }
    requires index { IsIndex (S.rules space.now) entries.now index.now }
    requires one { IsBounded (S.rules space.now) entry.now }
    ensures exact { IsTrue result ↔ ClosesStepsOf (S.rules space.now) least entries.now entry.now }
{
    let from = carry(entry);
    'steps: for number in 0..space.steps(&from) {
        if let Some((state, cost)) = space.step(&from, number) {
            if !is_covered_or_dear(space, entries, index, least, &state, entry.cost + cost) {
                return false;
            }
        }
    }
    true
}

/// Whether each label that is a goal is dear.
fn closes_goals<S: TellsRests<State = Carry>>(space: &S, entries: &[Entry], least: u128) -> bool
    requires bounded { AreBounded (S.rules space.now) entries.now }
    ensures exact { IsTrue result ↔ ClosesGoals (S.rules space.now) least entries.now }
{
    'entries: for place in 0..entries.len() {
        if !is_no_cheap_goal(space, &entries[place], least) {
            return false;
        }
    }
    true
}

/// Whether a label is no goal, or costs at least so much.
fn is_no_cheap_goal<S: TellsRests<State = Carry>>(space: &S, entry: &Entry, least: u128) -> bool
    requires one { IsBounded (S.rules space.now) entry.now }
    ensures exact { IsTrue result ↔ IsNoCheapGoal (S.rules space.now) least entry.now }
{
    entry.cost >= least || !space.goal(&carry(entry))
}

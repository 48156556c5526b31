//! Cases on searches over two small spaces.

ghost use Rattle.std.specs.Prelude.{◌<◌, ◌≤◌, ◌^◌, ℕ};
ghost use Rattle.cases.specs.LineSpace.{rules_of};
ghost use Rattle.cases.specs.Toll.{toll_rules};
ghost use Rattle.space_search.specs.Rules.{Rules};
ghost use Rattle.space_search.specs.Searches.{IsSearchOf, IsReadable};
ghost use Rattle.space_search.specs.Turns.{EndsSearch};
ghost use Rattle.space_search.specs.View.{view};

use crate::line::Line;
use crate::texts::{NO_CALL, yes_or_no};
use crate::toll::Toll;
use case_inputs::{Case, place_of};
use item_list::Turn;
use space_search::{Outcome, Search, least};
use std::alloc::{AllocError, Global};

/// The calls on searches, of which the last three are on whole searches.
pub(crate) const CALLS: [&str; 5] = [
    "search_tolls",
    "search_turns",
    "settled_tolls",
    "settled_both_ways",
    "search_line",
];

/// The most of each number of a case.
const MOST: u64 = 1_000_000;

/// The answer to a case on searches.
pub(crate) fn answer(alloc: Global, case: &Case) -> Result<String, AllocError> {
    match place_of(&CALLS, case.word(0)) {
        0 => tolls(alloc, case),
        1 => turns(alloc, case),
        2 => settled_tolls(alloc, case),
        3 => both_ways(alloc, case),
        4 => whole(alloc, case),
        _ => String::from_str(alloc, NO_CALL),
    }
}

/// The word at a place as a number from 1 to a million.
fn number(case: &Case, place: usize) -> u32
    ensures some { 1 ≤ result }
    ensures within { result ≤ 1000000 }
{
    case.count(place).clamp(1, MOST) as u32
}

/// The answer of a whole search over a line: cells, goal, limit => the choices and the cost of a
/// run, or `none`, or `spent`.
fn whole(alloc: Global, case: &Case) -> Result<String, AllocError> {
    let line = Line::new(number(case, 1), number(case, 2));
    match least(alloc, &line, &mut (), u64::from(number(case, 3)))? {
        Outcome::Found(run) => {
            let cost = run.cost;
            format!(in alloc; "{:?} {cost}", run.choices.as_slice())
        }
        Outcome::NoWay => String::from_str(alloc, "none"),
        Outcome::Budget => String::from_str(alloc, "spent"),
    }
}

/// What an answer of a turn is called.
fn word_of(turn: Turn<(), Outcome<u32>>) -> &'static str {
    match turn {
        Turn::More(_) => "more",
        Turn::Done(Outcome::Found(_)) => "found",
        Turn::Done(Outcome::NoWay) => "none",
        Turn::Done(Outcome::Budget) => "spent",
    }
}

/// The tolls, with a lower bound if the first word is `bounded`.
fn tolls_of(case: &Case) -> Toll {
    Toll {
        bounded: place_of(&["bounded"], case.word(1)) == 0,
    }
}

/// Two turns over the tolls, the first of a quota that is the limit too, the second of one more
/// label => the answer of the first and the labels behind it, the answer of the second and its
/// goal.
fn tolls(alloc: Global, case: &Case) -> Result<String, AllocError> {
    let toll = tolls_of(case);
    let quota = number(case, 2);
    let mut search: Search<(u32, u32)> = Search::new(alloc, u64::from(quota));
    let mut text = String::new(alloc);
    tell_tolls(alloc, &mut text, &toll, &mut search, quota)?;
    Ok(text)
}

/// Writes what is told of two turns of a search over the tolls.
fn tell_tolls(
    alloc: Global,
    text: &mut String,
    toll: &Toll,
    search: &mut Search<(u32, u32)>,
    quota: u32,
) -> Result<(), AllocError>
    requires of { IsSearchOf (toll_rules toll.now.bounded) search.old }
    requires some { 1 ≤ quota }
{
    let first = search.turn(toll, &mut (), quota)?;
    text.push_str(word_of(first))?;
    tell_labels(alloc, text, search)?;
    let second = search.turn(toll, &mut (), 1)?;
    write!(text, " {}", word_of(second))?;
    match second {
        Turn::Done(end) => tell_goal(alloc, text, search, end),
        Turn::More(_) => Ok(()),
    }
}

/// Writes the goal of a search at its end, where one was found.
fn tell_goal(
    alloc: Global,
    text: &mut String,
    search: &Search<(u32, u32)>,
    end: Outcome<u32>,
) -> Result<(), AllocError>
    requires ends { (rules : Rules (ℕ × ℕ)) × IsSearchOf rules search.now ×
        EndsSearch rules (view search.now) end }
{
    match end {
        Outcome::Found(label) => tell_label(alloc, text, search, label),
        _ => Ok(()),
    }
}

/// Writes the settled labels of a search.
fn tell_labels(
    alloc: Global,
    text: &mut String,
    search: &Search<(u32, u32)>,
) -> Result<(), AllocError>
    requires of { (rules : Rules (ℕ × ℕ)) × IsSearchOf rules search.now }
{
    'labels: for label in 0..search.labels() {
        tell_label(alloc, text, search, label)?;
    }
    Ok(())
}

/// Writes a label: its place, what is due there, its cost and its choices.
fn tell_label(
    alloc: Global,
    text: &mut String,
    search: &Search<(u32, u32)>,
    label: u32,
) -> Result<(), AllocError>
    requires readable { IsReadable search.now label }
{
    let (place, due) = *search.state_of(label);
    let cost = search.cost_of(label);
    write!(text, " {place} {due} {cost} ")?;
    let choices = search.choices(alloc, label)?;
    write!(text, "{:?},", choices.as_slice())
}

/// Turns of one label each over a line: cells, goal, how many turns, the most calls of `step` =>
/// whether no turn makes more, and whether the labels are the first cells, each at its distance;
/// after one more turn its answer, and whether they are.
fn turns(alloc: Global, case: &Case) -> Result<String, AllocError> {
    let line = Line::new(number(case, 1), number(case, 2));
    let mut search: Search<(u32, u32)> = Search::new(alloc, MOST);
    told_turns(alloc, case, &line, &mut search)
}

/// What is told of turns over a line.
fn told_turns(
    alloc: Global,
    case: &Case,
    line: &Line,
    search: &mut Search<(u32, u32)>,
) -> Result<String, AllocError>
    requires of { IsSearchOf (rules_of line.now) search.old }
{
    let most = most_calls(search, line, number(case, 3))?;
    let few = yes_or_no(most <= case.count(4));
    let before = yes_or_no(reads_right(search));
    let last = word_of(search.turn(line, &mut (), 1)?);
    let after = yes_or_no(reads_right(search));
    format!(in alloc; "{few} {before} {last} {after}")
}

/// The most calls of `step` in so many turns of one label each.
fn most_calls(search: &mut Search<(u32, u32)>, line: &Line, turns: u32) -> Result<u64, AllocError>
    requires of { IsSearchOf (rules_of line.now) search.old }
    ensures of { IsSearchOf (rules_of line.now) search.new }
{
    let mut most = 0u64;
    'turns: for _ in 0..turns {
        let before = line.calls();
        search.turn(line, &mut (), 1)?;
        most = most.max(line.calls().wrapping_sub(before));
    }
    Ok(most)
}

/// Whether the settled labels of a line are its first cells, each at its distance.
fn reads_right(search: &Search<(u32, u32)>) -> bool
    requires of { (rules : Rules (ℕ × ℕ)) × IsSearchOf rules search.now }
{
    'labels: for label in 0..search.labels() {
        if search.state_of(label).0 != label || search.cost_of(label) != label as u128 {
            return false;
        }
    }
    true
}

/// A turn of nine labels over the tolls => how many it settles, and its answer.
fn settled_tolls(alloc: Global, case: &Case) -> Result<String, AllocError> {
    let toll = tolls_of(case);
    let mut search: Search<(u32, u32)> = Search::new(alloc, 9);
    let turn = search.turn(&toll, &mut (), 9)?;
    format!(in alloc; "{} {}", search.labels(), word_of(turn))
}

/// A search over a line with steps both ways: cells, starts, and `superseding` or any other word =>
/// how many labels it settles, and its answer.
fn both_ways(alloc: Global, case: &Case) -> Result<String, AllocError> {
    let superseding = place_of(&["superseding"], case.word(3)) == 0;
    let line = Line::both_ways(number(case, 1), number(case, 2), superseding);
    let mut search: Search<(u32, u32)> = Search::new(alloc, MOST);
    let turn = search.turn(&line, &mut (), 2_000_000)?;
    format!(in alloc; "{} {}", search.labels(), word_of(turn))
}

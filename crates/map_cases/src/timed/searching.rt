//! A whole search over a space, with how many labels it settled.

ghost use Rattle.std.specs.Prelude.{◌≡◌, ◌≤◌, IfOk};
ghost use Rattle.space_search.specs.Rules.{Rules};
ghost use Rattle.space_search.specs.Searches.{IsSearchOf};
ghost use Rattle.space_search.specs.Turns.{EndsSearch};
ghost use Rattle.space_search.specs.View.{View, view};

use item_list::Turn;
use space_search::{Outcome, Search, Space};
use std::alloc::{AllocError, Global};

/// How a search ended.
#[derive(Clone, Copy)]
pub(crate) struct Ended {
    /// Its end.
    pub(crate) last: Outcome<u32>,
    /// The least rank of a goal, where one was found; else 0.
    pub(crate) rank: u128,
    /// How many labels were settled.
    pub(crate) labels: u32,
}

/// How a search with this limit of settled labels ends, in turns that settle so many at most.
pub(crate) fn settle<S: Space>(
    alloc: Global,
    space: &S,
    bounds: &mut S::Bounds,
    quota: u32,
    limit: u32,
) -> Result<Ended, AllocError>
    requires some { 1 ≤ quota }
    requires bounds { S.AreBounds space.now bounds.old }
    ensures last { IfOk result (λ ended. (after : View S.State) ×
        EndsSearch (S.rules space.now) after ended.last) }
{
    let limit = limit as u64;
    let mut search: Search<S::State> = Search::new(alloc, limit);
    'search: loop {
        match search.turn(space, bounds, quota)? {
            Turn::More(_) => {}
            Turn::Done(last) => return Ok(end_of(&search, last)),
        }
    }
}

/// How this search ended.
fn end_of<T: Copy + Drop>(search: &Search<T>, last: Outcome<u32>) -> Ended
    requires ends { (rules : Rules T) × IsSearchOf rules search.now ×
        EndsSearch rules (view search.now) last }
    ensures last { result.last ≡ last }
{
    let rank = match last {
        Outcome::Found(label) => search.cost_of(label),
        _ => 0,
    };
    let labels = search.labels();
    Ended { last, rank, labels }
}

/// The word for what a search answered.
pub(crate) fn word_of(last: Outcome<u32>) -> &'static str {
    match last {
        Outcome::Found(_) => "Found",
        Outcome::NoWay => "NoWay",
        Outcome::Budget => "Budget",
    }
}

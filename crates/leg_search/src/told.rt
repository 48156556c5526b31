//! What a step of a search on a leg comes to.

ghost use Rattle.std.specs.Prelude.{◌≡◌, ◌+◌, ◌<◌, ◌^◌};
ghost use Rattle.leg_search.specs.Steps.{IsLimited, counting, is_spent, told_of};

use crate::search::{Aim, FIRST_LABELS, Guiding, LegSearch, NEAR_LABELS, Stage};
use crate::turn::LegTurn;
use bike_space::Walk;
use item_list::Turn;
use space_search::Outcome;

/// The most labels that a search settles as it stands.
pub(crate) fn limit_of(aim: &Aim) -> u64
    ensures limited { IsLimited aim.now result }
{
    if !aim.first {
        return aim.limit;
    }
    match aim.guide {
        Some(_) => aim.limit.min(NEAR_LABELS),
        None => aim.limit.min(FIRST_LABELS),
    }
}

/// The same aim with so much counted besides.
pub(crate) fn counting(aim: Aim, more: u64) -> Aim
    requires fits { aim.counted + more < 2 ^ 64 }
    ensures value { result ≡ counting aim more }
{
    let Aim {
        limit,
        runs,
        first,
        counted,
        guide,
    } = aim;
    Aim {
        limit,
        runs,
        first,
        counted: counted + more,
        guide,
    }
}

/// Whether the limit is spent.
pub(crate) fn is_spent(turn: &Turn<(), Outcome<Walk>>) -> bool
    ensures value { result ≡ is_spent turn.now }
{
    match turn {
        Turn::Done(end) => match end {
            Outcome::Budget => true,
            _ => false,
        },
        Turn::More(_) => false,
    }
}

/// What labels that were settled came to, with the search as it goes on.
pub(crate) fn told(next: LegSearch, step: (u64, Turn<(), Outcome<Walk>>)) -> LegTurn
    ensures value { result ≡ told_of next step }
{
    let (counted, turn) = step;
    match turn {
        Turn::More(_) => {
            let turn = Turn::More(next);
            LegTurn { counted, turn }
        }
        Turn::Done(end) => {
            ended(next);
            let turn = Turn::Done(end);
            LegTurn { counted, turn }
        }
    }
}

/// A search is at its end: a guide takes back the memory of its bounds.
fn ended(search: LegSearch) {
    let LegSearch { stage, aim: _ } = search;
    if let Stage::Guided(it) = stage {
        let Guiding {
            kept: _,
            search: _,
            guide,
            bound,
        } = it;
        guide.give_back(bound);
    }
}

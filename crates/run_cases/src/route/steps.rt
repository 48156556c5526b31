//! Searches taken to their ends in turns, with what these counted.

ghost use Rattle.std.specs.Prelude.{◌≤◌};
ghost use Rattle.route_ready.specs.World.{world_of};

use item_list::{Turn, append_named};
use route_engine::Search;
use route_ready::{RouteError, World};
use std::alloc::{AllocError, Global};
use tasks::Stepped;

/// The most steps that are tried.
pub(crate) const MOST_STEPS: u64 = 1_000_000;

/// The end of a search, the turns that it took, and what was spent in all of them.
#[derive(Drop)]
pub(crate) struct Ended<F> {
    pub(crate) end: Result<F, RouteError>,
    pub(crate) turns: u64,
    pub(crate) spent: u64,
}

/// A search taken to its end in turns of a quota; none where it isn't at its end after all steps
/// that are tried.
pub(crate) fn stepped<S: Search>(
    alloc: Global,
    world: &World,
    search: S,
    quota: u32,
) -> Option<Ended<S::Found>>
    requires on { S.IsOn (world_of world.now) search }
    requires some { 1 ≤ quota }
{
    let mut search = search;
    let mut turns: u64 = 1;
    let mut spent: u64 = 0;
    let mut left = quota;
    'steps: for _ in 0..MOST_STEPS {
        let Stepped { spent: now, turn } = search.step(alloc, world, left);
        spent = spent.saturating_add(now as u64);
        left -= now;
        match turn {
            Turn::Done(end) => return Some(Ended { end, turns, spent }),
            Turn::More(next) => search = next,
        }
        if left == 0 {
            turns = turns.saturating_add(1);
            left = quota;
        }
    }
    None
}

/// Appends how many turns a search took, and what was spent in them.
pub(crate) fn append_counts(text: &mut Vec<u8>, turns: u64, spent: u64) -> Result<(), AllocError> {
    append_named(text, b"turns ", turns)?;
    append_named(text, b" settled ", spent)
}

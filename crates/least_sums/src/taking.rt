//! Entries leave the queue, and the links that reach their nodes are looked at.

ghost use Rattle.std.specs.Prelude.{◌≡◌, ◌<◌, ◌≤◌, IfOk, length, option_map};
ghost use Rattle.overpass_graph.specs.Maps.{roads_of};
ghost use Rattle.overpass_graph.specs.Roads.{IsRoads};
ghost use Rattle.least_sums.specs.Findings.{EndsWhole, Takes};
ghost use Rattle.least_sums.specs.States.{IsEnded, IsOpen, state_of};

use crate::amount::Amount;
use crate::board::Board;
use crate::near::{Near, is_far, near_behind};
use crate::prices::LinkPrices;
use crate::relax::spread;
use overpass_graph::Map;
use std::alloc::AllocError;

/// How many entries one step takes at most.
pub(crate) const ENTRIES: u32 = 16;

/// What taking entries came to.
#[derive(Drop)]
pub(crate) enum Taken<N: Copy + Drop + Ord> {
    /// More wait; sums are found so far from now on.
    More(Option<Near>),
    /// All that was needed is found: up to this radius, or for all nodes.
    Ended(Option<N>),
}

/// Takes a few entries from the queue, least sum first.
pub(crate) fn take<N: Amount, P: LinkPrices>(
    map: &Map,
    prices: &P,
    target: u32,
    board: &mut Board<N>,
    near: Option<Near>,
) -> Result<Taken<N>, AllocError>
    requires priced { length map.now.links ≤ (P.priced prices.now).count }
    requires state { IsOpen (roads_of map.now) (P.priced prices.now).price target N.FAR
        (state_of N.number board.old) }
    ensures takes { IfOk result (Takes (roads_of map.now) (P.priced prices.now).price target N.FAR
        N.number near (state_of N.number board.old) (state_of N.number board.new)) }
{
    // What the map promises of itself.
    let _nodes = map.nodes();
    let mut near = near;
    'entries: for _taken in 0..ENTRIES {
        let Some(entry) = board.pop() else {
            return Ok(Taken::Ended(None));
        };
        let (sum, node) = entry;
        if is_far(near, sum) {
            return Ok(Taken::Ended(Some(board.least_waiting(sum))));
        }
        if sum == board.sum(node) {
            spread(map, prices, target, board, node)?;
            near = near_behind(near, node, sum);
        }
    }
    Ok(Taken::More(near))
}

/// Takes all entries that are needed, and says up to which radius that was.
pub(crate) fn take_all<N: Amount, P: LinkPrices>(
    map: &Map,
    prices: &P,
    target: u32,
    board: &mut Board<N>,
    near: Option<Near>,
) -> Result<Option<N>, AllocError>
    requires priced { length map.now.links ≤ (P.priced prices.now).count }
    requires state { IsOpen (roads_of map.now) (P.priced prices.now).price target N.FAR
        (state_of N.number board.old) }
    ensures ends { IfOk result (λ radius. IsEnded (roads_of map.now) (P.priced prices.now).price
        target N.FAR (option_map N.number radius) (state_of N.number board.new)) }
    ensures whole { IfOk result (λ radius. EndsWhole near radius) }
{
    let mut near = near;
    'rest: loop {
        match take(map, prices, target, board, near)? {
            Taken::More(next) => near = next,
            Taken::Ended(radius) => return Ok(radius),
        }
    }
}

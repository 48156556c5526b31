//! Cases on what it costs to come from a node to others.

ghost use Rattle.std.specs.Prelude.{◌≡◌, ◌≤◌, ◌<◌, ◌^◌, ℕ, IfSome, false, length};
ghost use Rattle.bike_space.specs.Kept.{task_of};
ghost use Rattle.cost_table.specs.Reaches.{IsReachOn};
ghost use Rattle.map_cases.specs.Ends.{IsFrom};

use crate::answers::OUTSIDE;
use crate::space::ways::given_by_ways;
use crate::space::{marks, rates_of_case};
use crate::track::legs::numbers;
use bike_space::BikeSpace;
use case_inputs::{Case, place_of};
use cost_model::{FactsOf, PricedMap, TerrainOf, modes};
use cost_table::{Reach, ReachTurn, Want};
use overpass_graph::Map;
use std::alloc::{AllocError, Global};

/// The calls: costs of nodes that are named, or of all within a cost; and the same with how many
/// labels were settled, and in how many turns.
const CALLS: [&str; 4] = ["costs", "within", "costs_counted", "within_counted"];

/// The node that is left, the limit of labels, and how many a turn settles.
#[derive(Clone, Copy)]
struct From {
    source: u32,
    limit: u64,
    quota: u32,
}

/// What it costs to come from a node to those that are named, or to all within a cost.
pub(crate) fn answer(alloc: Global, case: &Case, map: &Map) -> Result<String, AllocError> {
    let Some(rates) = rates_of_case(case) else {
        return String::from_str(alloc, OUTSIDE);
    };
    let Some(from) = from_of(case, map) else {
        return String::from_str(alloc, OUTSIDE);
    };
    let given = given_by_ways(alloc, case, map)?;
    if given.count() != map.links() {
        return String::from_str(alloc, OUTSIDE);
    }
    let terrain = PricedMap::new(map, &given, &rates, modes(&given));
    over(alloc, case, terrain, map, from)
}

/// The same over a terrain.
fn over<G: TerrainOf>(
    alloc: Global,
    case: &Case,
    terrain: G,
    map: &Map,
    from: From,
) -> Result<String, AllocError>
    requires from { IsFrom (length map.now.nodes) from.source from.limit from.quota }
    requires map { map.now ≡ (G.terrain terrain).map }
{
    let cut = marks(alloc, case.word(15))?;
    let turns = case.count(4) == 1;
    // Whichever target the space has, it has no effect: it is the first node, also where that is
    // left.
    let space = BikeSpace::plain(alloc, terrain, cut.as_slice(), turns, from.source, 0)?;
    reached(alloc, case, &space, map, from)
}

/// The same over a space that leaves the node.
fn reached<G: TerrainOf>(
    alloc: Global,
    case: &Case,
    space: &BikeSpace<G>,
    map: &Map,
    from: From,
) -> Result<String, AllocError>
    requires start { space.now.kept.start ≡ from.source }
    requires unused { (link : ℕ) →
        (task_of (G.terrain space.now.terrain) space.now.kept).used link ≡ false }
    requires map { map.now ≡ (G.terrain space.now.terrain).map }
    requires small { from.limit < 2 ^ 32 }
    requires some { 1 ≤ from.quota }
{
    let call = place_of(&CALLS, case.word(0));
    let (nodes, want) = if call == 0 || call == 2 {
        let nodes = numbers(alloc, case.text(13))?.into_vec();
        let named = Vec::from_slice(alloc, nodes.as_slice())?;
        (nodes, Want::Nodes(named))
    } else {
        (all_nodes(alloc, map)?, Want::Within(case.size(13)))
    };
    let reach = Reach::new(alloc, from.source, want, from.limit);
    told_by(
        alloc,
        reach,
        space,
        map,
        from.quota,
        nodes.as_slice(),
        call >= 2,
    )
}

/// The node, the limit and the quota that words 12, 14 and 16 are.
fn from_of(case: &Case, map: &Map) -> Option<From>
    ensures found { IfSome result (λ from.
        IsFrom (length map.now.nodes) from.source from.limit from.quota) }
{
    let (source, limit, quota) = (case.count(12), case.count(14), case.count(16));
    let nodes = map.nodes() as u64;
    if source >= nodes || limit >= 1 << 32 || quota == 0 || quota >= 1 << 32 {
        return None;
    }
    Some(From {
        source: source as u32,
        limit,
        quota: quota as u32,
    })
}

/// The numbers of all nodes of a map.
fn all_nodes(alloc: Global, map: &Map) -> Result<Vec<u32>, AllocError> {
    let mut nodes = Vec::new(alloc);
    'nodes: for node in 0..map.nodes() {
        nodes.push(node)?;
    }
    Ok(nodes)
}

/// The costs of these nodes as the turns of a reach find them, and where they are counted the
/// labels that it settled and its turns.
fn told_by<G: TerrainOf>(
    alloc: Global,
    reach: Reach,
    space: &BikeSpace<G>,
    map: &Map,
    quota: u32,
    nodes: &[u32],
    counted: bool,
) -> Result<String, AllocError>
    requires on { IsReachOn (task_of (G.terrain space.now.terrain) space.now.kept) reach }
    requires unused { (link : ℕ) →
        (task_of (G.terrain space.now.terrain) space.now.kept).used link ≡ false }
    requires map { map.now ≡ (G.terrain space.now.terrain).map }
    requires some { 1 ≤ quota }
{
    let mut reach = reach;
    let mut turns = 0u64;
    let mut last = ReachTurn::More;
    'turns: loop {
        turns = turns.saturating_add(1);
        last = reach.turn(space, map, quota)?;
        match last {
            ReachTurn::More => {}
            ReachTurn::Budget => break,
            ReachTurn::Done => break,
        }
    }
    let mut line = String::new(alloc);
    tell_costs(&mut line, &reach, last, nodes)?;
    if counted {
        let settled = reach.settled();
        write!(line, "; {settled} in {turns}")?;
    }
    Ok(line)
}

/// Writes the nodes of these that have a cost, each with its own, or that the limit is spent.
fn tell_costs(
    line: &mut String,
    reach: &Reach,
    last: ReachTurn,
    nodes: &[u32],
) -> Result<(), AllocError> {
    if is_spent(last) {
        write!(line, "spent ")?;
        return Ok(());
    }
    'nodes: for node in nodes {
        if let Some(cost) = reach.cost_to(*node) {
            write!(line, "{node}={cost} ")?;
        }
    }
    Ok(())
}

/// Whether a reach ended with a spent limit.
fn is_spent(last: ReachTurn) -> bool {
    match last {
        ReachTurn::Budget => true,
        _ => false,
    }
}

//! The walk of a leg, with the labels that show it least.

ghost use Rattle.std.specs.Prelude.{◌≡◌, ◌≢◌, ◌<◌, ◌+◌, ◌^◌, ℕ, IfOk, false, length};
ghost use Rattle.bike_space.specs.Kept.{task_of};
ghost use Rattle.bike_space.specs.Tasks.{rules_of};
ghost use Rattle.certificate_text.specs.declared.certificate.LowerBound.{LowerBound};
ghost use Rattle.space_search.specs.Searches.{IsSearchOf};
ghost use Rattle.space_search.specs.Turns.{EndsFound, EndsSearch};
ghost use Rattle.space_search.specs.View.{view};
ghost use Rattle.route_certificate.specs.Asks.{IsAsk, leg_in};
ghost use Rattle.route_certificate.specs.Certified.{IsProof, IsShown, IsWritable};
ghost use Rattle.route_certificate.specs.Legs.{AreRests};

use crate::ask::TrackAsk;
use crate::proving::{Proving, ProvingTurn};
use crate::settled::settled_entries;
use bike_space::BikeSpace;
use certificate_text::{LowerBound, Proof};
use cost_model::{Carry, TerrainOf};
use item_list::Turn;
use space_search::{Outcome, Search};
use std::alloc::{AllocError, Global};

/// How many labels one turn settles at most.
const QUOTA: u32 = 1048576;

/// A least walk of the leg at a place with what shows it least, or that it has none, or that
/// `limit` labels are settled and one more would be.
pub(crate) fn certify_leg<G: TerrainOf>(
    alloc: Global,
    terrain: G,
    ask: &TrackAsk,
    place: usize,
    bound: LowerBound,
    limit: u64,
) -> Result<Outcome<Proof>, AllocError>
    requires asked { IsAsk (G.terrain terrain) ask.now }
    requires within { place + 1 < length ask.now.nodes.now }
    requires small { limit < 2 ^ 32 }
    ensures exact { IfOk result
        (IsShown bound (leg_in (G.terrain terrain) ask.now place) limit) }
    ensures fits { IfOk result (IsWritable (G.terrain terrain).map) }
{
    let mut proving = Proving::new(alloc, terrain, ask, place, bound, limit)?;
    'turns: loop {
        let ProvingTurn { turn, .. } = proving.turn(alloc, terrain, QUOTA)?;
        match turn {
            Turn::More(next) => proving = next,
            Turn::Done(end) => return Ok(end),
        }
    }
}

/// The end of a search over the space of a leg, with the walk that was found.
pub(crate) fn told<G: TerrainOf>(
    alloc: Global,
    space: &BikeSpace<G>,
    search: &Search<Carry>,
    end: Outcome<u32>,
) -> Result<Outcome<Proof>, AllocError>
    requires unused { (link : ℕ) →
        (task_of (G.terrain space.now.terrain) space.now.kept).used link ≡ false }
    requires differ { space.now.kept.start ≢ space.now.kept.target }
    requires of { IsSearchOf (rules_of (task_of (G.terrain space.now.terrain) space.now.kept))
        search.now }
    requires small { (view search.now).limit < 2 ^ 32 }
    requires ends { EndsSearch (rules_of (task_of (G.terrain space.now.terrain) space.now.kept))
        (view search.now) end }
    ensures exact { (bound : LowerBound) → AreRests bound
        (task_of (G.terrain space.now.terrain) space.now.kept).leg
        (task_of (G.terrain space.now.terrain) space.now.kept).low → IfOk result
        (IsShown bound (task_of (G.terrain space.now.terrain) space.now.kept).leg
        (view search.now).limit) }
{
    match end {
        Outcome::Found(label) => {
            let proof = proof_of(alloc, space, search, label)?;
            Ok(Outcome::Found(proof))
        }
        Outcome::NoWay => Ok(Outcome::NoWay),
        Outcome::Budget => Ok(Outcome::Budget),
    }
}

/// The walk that a search found, with the labels that it settled.
fn proof_of<G: TerrainOf>(
    alloc: Global,
    space: &BikeSpace<G>,
    search: &Search<Carry>,
    label: u32,
) -> Result<Proof, AllocError>
    requires unused { (link : ℕ) →
        (task_of (G.terrain space.now.terrain) space.now.kept).used link ≡ false }
    requires differ { space.now.kept.start ≢ space.now.kept.target }
    requires of { IsSearchOf (rules_of (task_of (G.terrain space.now.terrain) space.now.kept))
        search.now }
    requires small { (view search.now).limit < 2 ^ 32 }
    requires found { EndsFound (rules_of (task_of (G.terrain space.now.terrain) space.now.kept))
        (view search.now) label }
    ensures exact { (bound : LowerBound) → AreRests bound
        (task_of (G.terrain space.now.terrain) space.now.kept).leg
        (task_of (G.terrain space.now.terrain) space.now.kept).low → IfOk result
        (IsProof bound (task_of (G.terrain space.now.terrain) space.now.kept).leg) }
{
    let entries = settled_entries(alloc, search)?;
    let choices = search.choices(alloc, label)?;
    let walk = space.link_of(alloc, choices.as_slice())?;
    let cost = search.cost_of(label);
    Ok(Proof {
        entries,
        cost,
        walk: walk.into_vec(),
    })
}

//! The steps of a turn of the search for the walk of a leg.

ghost use Rattle.std.specs.Prelude.{◌≡◌, ◌<◌, ◌≤◌, ◌^◌, ℕ, IfOk, length};
ghost use Rattle.certificate_text.specs.declared.certificate.LowerBound.{LowerBound as TheLowerBound};
ghost use Rattle.certificate_text.specs.Texts.{IsLeg, leg_of};
ghost use Rattle.cost_model.specs.Rides.{Leg};
ghost use Rattle.overpass_graph.specs.Maps.{MapValue};
ghost use Rattle.route_certificate.specs.Certified.{IsProof};
ghost use Rattle.route_certificate.specs.Provings.{IsProvingFor, StepsProving};
ghost use Rattle.route_certificate.specs.declared.proving.Stage.TheVariants as stages;

use crate::finding::told;
use crate::proving::{Proving, ProvingTurn, Stage};
use bike_space::{Opening, Rested};
use certificate_text::Proof;
use cost_model::{Carry, TerrainOf};
use item_list::Turn;
use space_search::{Outcome, Search};
use std::alloc::{AllocError, Global};

impl Proving {
    /// Counts at most `quota`. Where the search changes what it does, it goes on in another step.
    pub(crate) fn step<G: TerrainOf>(
        self,
        alloc: Global,
        terrain: G,
        quota: u32,
    ) -> Result<ProvingTurn, AllocError>
        requires on { (bound : TheLowerBound) × (leg : Leg) × (limit : ℕ) ×
            IsProvingFor (G.terrain terrain) bound leg limit self }
        requires some { 1 ≤ quota }
        ensures steps { (bound : TheLowerBound) (leg : Leg) (limit : ℕ) →
            IsProvingFor (G.terrain terrain) bound leg limit self →
            IfOk result (StepsProving (G.terrain terrain) bound leg limit quota self) }
    {
        let Proving {
            stage,
            limit,
            counted,
        } = self;
        match stage {
            Stage::Home => Ok(ProvingTurn {
                counted: 0,
                turn: Turn::Done(Outcome::Found(home_proof(alloc))),
            }),
            Stage::Opening(opening) => open_on(alloc, terrain, opening, limit, counted),
            Stage::Settling { kept, search } => {
                settle_on(alloc, terrain, kept, search, limit, counted, quota)
            }
        }
    }
}

/// A step of finding what still has to be paid; at its end labels are settled.
fn open_on<G: TerrainOf>(
    alloc: Global,
    terrain: G,
    opening: Opening,
    limit: u64,
    counted: u64,
) -> Result<ProvingTurn, AllocError>
    requires on { (bound : TheLowerBound) × (leg : Leg) × (most : ℕ) ×
        IsProvingFor (G.terrain terrain) bound leg most
        (record { stage = stages.Opening opening; limit = limit; counted = counted }) }
    ensures steps { (bound : TheLowerBound) (leg : Leg) (most quota : ℕ) → 1 ≤ quota →
        IsProvingFor (G.terrain terrain) bound leg most
        (record { stage = stages.Opening opening; limit = limit; counted = counted }) →
        IfOk result (StepsProving (G.terrain terrain) bound leg most quota
        (record { stage = stages.Opening opening; limit = limit; counted = counted })) }
{
    let stage = match opening.step(alloc, &terrain)? {
        Turn::More(opening) => Stage::Opening(opening),
        Turn::Done(kept) => Stage::Settling {
            kept,
            search: Search::new(alloc, limit),
        },
    };
    Ok(ProvingTurn {
        counted: 1,
        turn: Turn::More(Proving {
            stage,
            limit,
            counted: counted + 1,
        }),
    })
}

/// A step in which labels are settled.
fn settle_on<G: TerrainOf>(
    alloc: Global,
    terrain: G,
    kept: Rested,
    search: Search<Carry>,
    limit: u64,
    counted: u64,
    quota: u32,
) -> Result<ProvingTurn, AllocError>
    requires on { (bound : TheLowerBound) × (leg : Leg) × (most : ℕ) ×
        IsProvingFor (G.terrain terrain) bound leg most
        (record { stage = stages.Settling kept search; limit = limit; counted = counted }) }
    requires some { 1 ≤ quota }
    ensures steps { (bound : TheLowerBound) (leg : Leg) (most : ℕ) →
        IsProvingFor (G.terrain terrain) bound leg most
        (record { stage = stages.Settling kept search; limit = limit; counted = counted }) →
        IfOk result (StepsProving (G.terrain terrain) bound leg most quota
        (record { stage = stages.Settling kept search; limit = limit; counted = counted })) }
{
    let mut search = search;
    let before = search.labels();
    let space = kept.wake(terrain);
    let turn = search.turn(&space, &mut (), quota)?;
    let settled = (search.labels() - before) as u64;
    match turn {
        Turn::More(_) => {
            let kept = space.rest();
            Ok(ProvingTurn {
                counted: settled,
                turn: Turn::More(Proving {
                    stage: Stage::Settling { kept, search },
                    limit,
                    counted: counted + settled,
                }),
            })
        }
        Turn::Done(end) => Ok(ProvingTurn {
            counted: settled,
            turn: Turn::Done(told(alloc, &space, &search, end)?),
        }),
    }
}

/// What shows the walk of a leg least whose nodes are one: a walk without links, and no labels.
fn home_proof(alloc: Global) -> Proof
    ensures least { (bound : TheLowerBound) (leg : Leg) → leg.start ≡ leg.target →
        IsProof bound leg result }
    ensures fits { (map : MapValue) → IsLeg map (leg_of result) }
{
    Proof {
        entries: Vec::new(alloc),
        cost: 0,
        walk: Vec::new(alloc),
    }
}

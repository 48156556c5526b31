//! A job of a certificate goes on by the beginning of the search on its next leg, or by a turn of
//! that search.

ghost use Rattle.std.specs.Prelude.{◌≡◌, ◌≤◌, ◌<◌, suc, Some, None, length};
ghost use Rattle.item_list.specs.Turns.{Says};
ghost use Rattle.certificate_text.specs.declared.certificate.LowerBound.TheVariants.{Least};
ghost use Rattle.route_certificate.specs.Certified.{IsShown, IsWritable};
ghost use Rattle.route_engine.specs.CertificateJobs.{EndsLeg, IsNextLeg, StepsCertificate};
ghost use Rattle.route_engine.specs.Certificates.{AreProofs};
ghost use Rattle.route_engine.specs.Jobs.{IsPlanOn, plan_of};
ghost use Rattle.route_engine.specs.Plans.{leg_count, nth_leg};
ghost use Rattle.route_ready.specs.World.{world_of};

use crate::advance::BEGINNING;
use crate::begin::terrain;
use crate::certificate::CertificateJob;
use crate::plan::JobPlan;
use certificate_text::{Certificate, LowerBound, Proof};
use item_list::Turn;
use route_certificate::{Proving, ProvingTurn, TrackAsk};
use route_ready::{RouteError, World};
use space_search::Outcome;
use std::alloc::Global;
use tasks::Stepped;

/// The job goes on by a turn of the search on its next leg, which counts at most `quota`.
pub(crate) fn gone_on(
    alloc: Global,
    world: &World,
    plan: JobPlan,
    legs: Vec<Proof>,
    proving: Proving,
    quota: u32,
) -> Stepped<CertificateJob, Result<Certificate, RouteError>>
    requires on { IsPlanOn (world_of world.now) plan }
    requires first { AreProofs (plan_of (world_of world.now) plan) legs.items }
    requires next { IsNextLeg (plan_of (world_of world.now) plan) legs.items proving }
    requires some { 1 ≤ quota }
    ensures steps { StepsCertificate (world_of world.now) quota
        (record { alloc = alloc; plan = plan; legs = legs; next = Some proving }) result }
{
    let turned = proving.turn(alloc, terrain(world, &plan), quota);
    match turned {
        Ok(ProvingTurn { counted, turn }) => match turn {
            Turn::More(next) => Stepped {
                spent: counted as u32,
                turn: Turn::More(CertificateJob {
                    alloc,
                    plan,
                    legs,
                    next: Some(next),
                }),
            },
            Turn::Done(end) => Stepped {
                spent: counted as u32,
                turn: ended(alloc, world, plan, legs, end),
            },
        },
        Err(_) => Stepped {
            spent: 0,
            turn: Turn::Done(Err(RouteError::NoMemory)),
        },
    }
}

/// The job behind the end of the search on its next leg.
fn ended(
    alloc: Global,
    _world: &World,
    plan: JobPlan,
    legs: Vec<Proof>,
    end: Outcome<Proof>,
) -> Turn<CertificateJob, Result<Certificate, RouteError>>
    requires on { IsPlanOn (world_of _world.now) plan }
    requires first { AreProofs (plan_of (world_of _world.now) plan) legs.items }
    requires there { length legs.items < leg_count (plan_of (world_of _world.now) plan) }
    requires shown { let plan = plan_of (world_of _world.now) plan in
        IsShown Least (nth_leg plan (length legs.items)) plan.limit end }
    requires fits { IsWritable (plan_of (world_of _world.now) plan).setting.terrain.map end }
    ensures ends { EndsLeg (world_of _world.now) plan (length legs.items) result }
{
    let leg = legs.len() as u32;
    match end {
        Outcome::Found(proof) => {
            let mut legs = legs;
            match legs.push(proof) {
                Ok(()) => Turn::More(CertificateJob {
                    alloc,
                    plan,
                    legs,
                    next: None,
                }),
                Err(_) => Turn::Done(Err(RouteError::NoMemory)),
            }
        }
        Outcome::NoWay => Turn::Done(Err(RouteError::NoTrack { leg })),
        Outcome::Budget => Turn::Done(Err(RouteError::Budget {
            leg,
            alternative: 0,
        })),
    }
}

/// The job goes on by the beginning of the search on its next leg; or it is at its end, where no leg
/// is left. The beginning counts as well.
pub(crate) fn begun(
    alloc: Global,
    world: &World,
    plan: JobPlan,
    legs: Vec<Proof>,
    quota: u32,
) -> Stepped<CertificateJob, Result<Certificate, RouteError>>
    requires on { IsPlanOn (world_of world.now) plan }
    requires first { AreProofs (plan_of (world_of world.now) plan) legs.items }
    requires fit { length legs.items ≤ leg_count (plan_of (world_of world.now) plan) }
    requires some { 1 ≤ quota }
    ensures steps { StepsCertificate (world_of world.now) quota
        (record { alloc = alloc; plan = plan; legs = legs; next = None }) result }
{
    let place = legs.len();
    if place == plan.legs() {
        let bound = LowerBound::Least;
        return Stepped {
            spent: 0,
            turn: Turn::Done(Ok(Certificate { bound, legs })),
        };
    }
    let ask = TrackAsk {
        nodes: plan.nodes.as_slice(),
        cut: plan.cut.as_slice(),
        turns: plan.ready.turns,
    };
    let bound = LowerBound::Least;
    match Proving::new(alloc, terrain(world, &plan), &ask, place, bound, plan.limit) {
        Ok(next) => Stepped {
            spent: BEGINNING.min(quota),
            turn: Turn::More(CertificateJob {
                alloc,
                plan,
                legs,
                next: Some(next),
            }),
        },
        Err(_) => Stepped {
            spent: 0,
            turn: Turn::Done(Err(RouteError::NoMemory)),
        },
    }
}

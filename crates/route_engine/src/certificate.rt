//! A certificate that is found in turns.

ghost use Rattle.std.specs.Prelude.{◌≡◌, ◌≤◌};
ghost use Rattle.route_engine.specs.CertificateJobs.{IsCertificateOn, StepsCertificate, certificate_plan};
ghost use Rattle.route_engine.specs.Jobs.{IsPlanOn, plan_of};
ghost use Rattle.route_ready.specs.World.{world_of};

use crate::certificate_steps::{begun, gone_on};
use crate::plan::JobPlan;
use certificate_text::{Certificate, Proof};
use route_certificate::Proving;
use route_ready::{RouteError, World};
use std::alloc::Global;
use tasks::Stepped;

/// The certificate of a request's track, found in turns: for each leg one search by the least sums
/// of what still has to be paid. The alternative, the form and the runs of the request have no
/// effect.
pub struct CertificateJob {
    pub(crate) alloc: Global,
    pub(crate) plan: JobPlan,
    /// What shows the walks of the first legs least.
    pub(crate) legs: Vec<Proof>,
    /// The search on the leg behind them; none before its beginning.
    pub(crate) next: Option<Proving>,
}

impl Drop for CertificateJob {
    fn drop(self) {
        let CertificateJob {
            alloc: _,
            plan: _,
            legs: _,
            next: _,
        } = self;
    }
}

impl CertificateJob {
    /// A job for a plan over a world.
    pub(crate) fn with_plan(alloc: Global, _world: &World, plan: JobPlan) -> CertificateJob
        requires on { IsPlanOn (world_of _world.now) plan }
        ensures on { IsCertificateOn (world_of _world.now) result }
        ensures plan { certificate_plan (world_of _world.now) result ≡
            plan_of (world_of _world.now) plan }
    {
        CertificateJob {
            alloc,
            plan,
            legs: Vec::new(alloc),
            next: None,
        }
    }

    /// A step of it: the beginning of the search on its next leg, or a turn of that search.
    pub(crate) fn stepped(
        self,
        world: &World,
        budget: u32,
    ) -> Stepped<CertificateJob, Result<Certificate, RouteError>>
        requires on { IsCertificateOn (world_of world.now) self }
        requires some { 1 ≤ budget }
        ensures steps { StepsCertificate (world_of world.now) budget self result }
    {
        let CertificateJob {
            alloc,
            plan,
            legs,
            next,
        } = self;
        match next {
            Some(next) => gone_on(alloc, world, plan, legs, next, budget),
            None => begun(alloc, world, plan, legs, budget),
        }
    }
}

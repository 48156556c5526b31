//! The check of a certificate of a request.

ghost use Rattle.std.specs.Prelude.{◌≡◌, ◌⊎◌, ℕ, Err, IfErr, IfOk};
ghost use Rattle.profile_text.specs.Expr.{sections_in};
ghost use Rattle.ride_certificates.specs.Bases.{IsBasisOn, setting_on};
ghost use Rattle.ride_certificates.specs.Checks.{AgreesWithServed, AreLeastFor, AreLeastOn, Checks, ChecksTo};
ghost use Rattle.route_certificate.specs.Verdicts.{AreShort};
ghost use Rattle.route_certificate.specs.declared.verdict.Verdict.TheVariants.{Yes};
ghost use Rattle.route_engine.specs.Answers.{IsAnswer};
ghost use Rattle.route_engine.specs.Jobs.{IsWithin};
ghost use Rattle.route_engine.specs.Replies.{question_of};
ghost use Rattle.route_http.specs.Seen.{asked};
ghost use Rattle.route_ready.specs.World.{world_of};
ghost use Rattle.route_ready.specs.declared.error.RouteError.TheVariants.{NoMemory};

use crate::basis::{Basis, basis_of, terrain};
use certificate_text::Certificate;
use profile_text::Profile;
use route_certificate::{TrackAsk, Verdict, verify};
use route_http::Request;
use route_ready::{RouteError, World};
use std::alloc::{AllocError, Global};

/// Whether a certificate shows the track least that a request asks for over a world by a profile;
/// or why the request has no legs. No labels are searched.
pub fn check_certificate(
    alloc: Global,
    world: &World,
    profile: &Profile,
    request: &Request,
    certificate: &Certificate,
) -> Result<Verdict, RouteError>
    requires within { IsWithin (asked request.now) }
    requires first { (asked request.now).alternative ≡ 0 }
    requires short { AreShort certificate.now }
    ensures exact { let question =
        question_of (world_of world.now) (sections_in profile.now) (asked request.now) in
        Checks question certificate.now result }

    // With `Yes` each leg's walk is one between the waypoints' nodes, none costs less, and together
    // they cost this.
    ensures least { let question =
        question_of (world_of world.now) (sections_in profile.now) (asked request.now) in
        IfOk result (λ verdict. (cost : ℕ) → verdict ≡ Yes cost →
        AreLeastFor question certificate.now cost) }

    // Of whatever a server gives for the question, and of any certificate that says the same, it
    // says yes.
    ensures served { let question =
        question_of (world_of world.now) (sections_in profile.now) (asked request.now) in
        AgreesWithServed question certificate.now result }

    // Whatever refuses the check refuses the track too.
    ensures refused { let question =
        question_of (world_of world.now) (sections_in profile.now) (asked request.now) in
        IfErr result (λ e. (e ≡ NoMemory) ⊎ IsAnswer question (Err e)) }
{
    match basis_of(alloc, world, profile, request) {
        Ok(basis) => {
            let verdict = check_on(alloc, world, &basis, certificate)?;
            Ok(verdict)
        }
        Err(error) => Err(error),
    }
}

/// What a check of a certificate answers for a request that was made ready.
fn check_on(
    alloc: Global,
    world: &World,
    basis: &Basis,
    certificate: &Certificate,
) -> Result<Verdict, AllocError>
    requires on { IsBasisOn (world_of world.now) basis.now }
    requires short { AreShort certificate.now }
    ensures exact { IfOk result (ChecksTo (setting_on (world_of world.now) basis.now)
        basis.now.nodes.items certificate.now) }
    ensures least { IfOk result (λ verdict. (cost : ℕ) → verdict ≡ Yes cost →
        AreLeastOn (setting_on (world_of world.now) basis.now) basis.now.nodes.items
        certificate.now) }
{
    let ask = TrackAsk {
        nodes: basis.nodes.as_slice(),
        cut: basis.cut.as_slice(),
        turns: basis.ready.turns,
    };
    verify(alloc, terrain(world, basis), &ask, certificate)
}

//! The certificate of a request.

ghost use Rattle.std.specs.Prelude.{◌≡◌, ◌⊎◌, ◌<◌, ◌^◌, IfErr, IfOk};
ghost use Rattle.certificate_text.specs.Texts.{AreLegs, legs_of, value_of};
ghost use Rattle.profile_text.specs.Expr.{sections_in};
ghost use Rattle.ride_certificates.specs.Bases.{IsBasisOn, setting_on};
ghost use Rattle.ride_certificates.specs.Certificates.{Certifies, CertifiesTo, IsRefusedAsTrack, told_of};
ghost use Rattle.ride_certificates.specs.Checks.{AreAgreed};
ghost use Rattle.route_certificate.specs.Certified.{AreWritable};
ghost use Rattle.route_engine.specs.Jobs.{IsWithin};
ghost use Rattle.route_engine.specs.Replies.{question_of};
ghost use Rattle.route_http.specs.Seen.{asked};
ghost use Rattle.route_ready.specs.World.{world_of};
ghost use Rattle.route_ready.specs.declared.error.RouteError.TheVariants.{NoMemory};

use crate::basis::{Basis, basis_of, terrain};
use certificate_text::{Certificate, LowerBound};
use profile_text::Profile;
use route_certificate::{Certified, TrackAsk};
use route_http::Request;
use route_ready::{RouteError, World};
use std::alloc::{AllocError, Global};

/// A certificate of the track that a request asks for over a world by a profile, or why there is
/// none. Each leg is searched by the lower bound of the certificate, and `runs` has no effect.
pub fn certify(
    alloc: Global,
    world: &World,
    profile: &Profile,
    request: Request,
    bound: LowerBound,
) -> Result<Certificate, RouteError>
    requires within { IsWithin (asked request) }
    requires first { (asked request).alternative ≡ 0 }
    ensures exact { let question =
        question_of (world_of world.now) (sections_in profile.now) (asked request) in
        Certifies question bound result }

    // What is given may be written.
    ensures fits { IfOk result (λ certificate.
        AreLegs (world_of world.now).map (legs_of certificate)) }

    // Whatever a check answers of it, or of any other certificate that says the same, for the same
    // question, is yes.
    ensures agrees { let question =
        question_of (world_of world.now) (sections_in profile.now) (asked request) in
        IfOk result (λ certificate. AreAgreed question (value_of certificate)) }

    // Whatever refuses it refuses the track too, but for a spent limit.
    ensures refused { let question =
        question_of (world_of world.now) (sections_in profile.now) (asked request) in
        IfErr result (λ e. (e ≡ NoMemory) ⊎ IsRefusedAsTrack question bound e) }
{
    match basis_of(alloc, world, profile, &request) {
        Ok(basis) => {
            let found = certify_on(alloc, world, &basis, bound, request.labels)?;
            told(found)
        }
        Err(error) => Err(error),
    }
}

/// What certifying the legs of a request comes to.
fn certify_on(
    alloc: Global,
    world: &World,
    basis: &Basis,
    bound: LowerBound,
    limit: u64,
) -> Result<Certified, AllocError>
    requires on { IsBasisOn (world_of world.now) basis.now }
    requires small { limit < 2 ^ 32 }
    ensures exact { IfOk result
        (CertifiesTo (setting_on (world_of world.now) basis.now) basis.now.nodes.items bound
        limit) }
    ensures fits { IfOk result (AreWritable (world_of world.now).map) }
{
    let ask = TrackAsk {
        nodes: basis.nodes.as_slice(),
        cut: basis.cut.as_slice(),
        turns: basis.ready.turns,
    };
    route_certificate::certify(alloc, terrain(world, basis), &ask, bound, limit)
}

/// What is told of what certifying comes to.
fn told(found: Certified) -> Result<Certificate, RouteError>
    ensures exact { result ≡ told_of found }
{
    match found {
        Certified::Shown(certificate) => Ok(certificate),
        Certified::NoWalk { leg } => Err(RouteError::NoTrack { leg }),
        Certified::Spent { leg } => Err(RouteError::Budget {
            leg,
            alternative: 0,
        }),
    }
}

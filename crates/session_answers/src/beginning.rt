//! What a query comes to at once.

ghost use Rattle.std.specs.Prelude.{◌≡◌, ◌≢◌, ◌<◌, List, ℕ, Ok, Some, IfOk, length};
ghost use Rattle.item_list.specs.Answer.{Answers};
ghost use Rattle.lookup_table.specs.Tag.{name_place};
ghost use Rattle.route_engine.specs.Jobs.{IsWithin};
ghost use Rattle.route_http.specs.Lines.{request_line};
ghost use Rattle.route_http.specs.Seen.{asked};
ghost use Rattle.route_http.specs.declared.error.RequestError.TheVariants.{NoMemory};
ghost use Rattle.route_ready.specs.World.{world_of};
ghost use Rattle.route_ready.specs.Worlds.{WorldValue};
ghost use Rattle.route_ready.specs.Entries.{names_of};
ghost use Rattle.session_answers.specs.Frames.{line_frame};
ghost use Rattle.session_answers.specs.Jobs.{AreKept, Begins};
ghost use Rattle.session_answers.specs.Kept.{StayAwaited};
ghost use Rattle.session_answers.specs.Profiles.{stored_of};
ghost use Rattle.session_answers.specs.Sites.{is_taken, limited, request_at, site_of, spelt_for};

use crate::frames::{line_frame, refusal_frame};
use crate::kept::KeptProfiles;
use crate::profiles::Profiles;
use crate::refusal::Refusal;
use crate::routes::route_frame;
use crate::search::{Search, search_for};
use route_engine::Aim;
use route_http::{Key, Request, RequestError, costed_request, request, tabled_request};
use route_ready::World;
use std::alloc::{AllocError, Global};

/// What a query comes to at once.
#[derive(Drop)]
pub enum Begun {
    /// It is answered by this frame.
    Frame(Vec<u8>),
    /// It is searched for.
    Job(Search),
}

/// What a query comes to at once that is asked for this, over a world and the stored profiles. No
/// search settles more than `labels` of them, whatever the query asks. A profile that is kept is used
/// again; any other is made ready in the turns of the search. An error is want of memory; what is kept
/// is still sound then.
pub fn begin(
    alloc: Global,
    world: &World,
    labels: u64,
    profiles: &Profiles,
    kept: &mut KeptProfiles,
    aim: Aim,
    query: &[u8],
) -> Result<Begun, AllocError>
    requires kept { AreKept (world_of world.now) (stored_of profiles.now) kept.old }
    ensures exact { let site = site_of (world_of world.now) labels in
        IfOk result (Begins site (stored_of profiles.now) kept.new aim query.now) }
    ensures kept { AreKept (world_of world.now) (stored_of profiles.now) kept.new }
    ensures stay { StayAwaited (world_of world.now) kept.old kept.new }
{
    match request_for(alloc, labels, aim, query) {
        Ok(request) => named(alloc, world, profiles, kept, aim, request),
        Err(error) => {
            let frame = malformed(alloc, error)?;
            Ok(Begun::Frame(frame))
        }
    }
}

/// The request that a query spells which is asked for this, of which no search settles more labels
/// than these.
fn request_for(alloc: Global, labels: u64, aim: Aim, query: &[u8]) -> Result<Request, RequestError>
    ensures exact { (world : WorldValue) →
        Answers asked (request_at (site_of world labels) aim query.now) NoMemory result }
    ensures within { IfOk result (λ request. IsWithin (asked request)) }
{
    let request = limited(spelt_for(alloc, aim, query)?, labels);
    if is_taken(aim, request.alternative) {
        Ok(request)
    } else {
        Err(RequestError::BadValue {
            key: Key::Alternativeidx,
        })
    }
}

/// The request that a query spells which asks for this.
fn spelt_for(alloc: Global, aim: Aim, query: &[u8]) -> Result<Request, RequestError>
    ensures exact { Answers asked (spelt_for aim query.now) NoMemory result }
    ensures within { IfOk result (λ request. IsWithin (asked request)) }
{
    match aim {
        Aim::Within => costed_request(alloc, query),
        Aim::Table => tabled_request(alloc, query),
        _ => request(alloc, query),
    }
}

/// Whether what is asked for may be asked of an alternative.
fn is_taken(aim: Aim, alternative: u8) -> bool
    ensures exact { result ≡ is_taken aim alternative }
{
    match aim {
        Aim::Certificate => alternative == 0,
        Aim::Track | Aim::Table | Aim::Within => true,
    }
}

/// A request of which no search settles more labels than these.
fn limited(request: Request, labels: u64) -> Request
    ensures exact { asked result ≡ limited labels (asked request) }
{
    let mut request = request;
    if labels < request.labels {
        request.labels = labels;
    }
    request
}

/// The frame of a query that is no request. Want of memory is no reason.
fn malformed(alloc: Global, error: RequestError) -> Result<Vec<u8>, AllocError>
    ensures exact { IfOk result (λ frame. frame.items ≡ line_frame 400 (request_line error)) }
    ensures reason { IfOk result (λ _. error ≢ NoMemory) }
{
    match error {
        RequestError::NoMemory => Err(AllocError),
        other => {
            let line = other.line(alloc)?;
            line_frame(alloc, 400, line)
        }
    }
}

/// What a request comes to at once.
fn named(
    alloc: Global,
    world: &World,
    profiles: &Profiles,
    kept: &mut KeptProfiles,
    aim: Aim,
    request: Request,
) -> Result<Begun, AllocError>
    requires kept { AreKept (world_of world.now) (stored_of profiles.now) kept.old }
    requires within { IsWithin (asked request) }
    ensures exact { (labels : ℕ) (query : List ℕ) →
        let site = site_of (world_of world.now) labels in
        request_at site aim query ≡ Ok (asked request) →
        IfOk result (Begins site (stored_of profiles.now) kept.new aim query) }
    ensures kept { AreKept (world_of world.now) (stored_of profiles.now) kept.new }
    ensures stay { StayAwaited (world_of world.now) kept.old kept.new }
{
    match profiles.find(request.profile.as_slice()) {
        Some(place) => stored(alloc, world, profiles, kept, aim, request, place),
        None => {
            let frame = refusal_frame(alloc, Refusal::UnknownProfile)?;
            Ok(Begun::Frame(frame))
        }
    }
}

/// What a request comes to at once whose profile is stored at a place.
fn stored(
    alloc: Global,
    world: &World,
    profiles: &Profiles,
    kept: &mut KeptProfiles,
    aim: Aim,
    request: Request,
    place: u32,
) -> Result<Begun, AllocError>
    requires kept { AreKept (world_of world.now) (stored_of profiles.now) kept.old }
    requires within { IsWithin (asked request) }
    requires fits { place < length (stored_of profiles.now) }
    requires found { name_place (names_of (stored_of profiles.now)) (asked request).profile ≡
        Some place }
    ensures exact { (labels : ℕ) (query : List ℕ) →
        let site = site_of (world_of world.now) labels in
        request_at site aim query ≡ Ok (asked request) →
        IfOk result (Begins site (stored_of profiles.now) kept.new aim query) }
    ensures kept { AreKept (world_of world.now) (stored_of profiles.now) kept.new }
    ensures stay { StayAwaited (world_of world.now) kept.old kept.new }
{
    let profile = profiles.profile(place);
    match kept.want(alloc, world, profile, place, &request.overrides) {
        Ok(wanted) => {
            let search = search_for(alloc, world, wanted, place, aim, request)?;
            Ok(Begun::Job(search))
        }
        Err(error) => {
            let frame = route_frame(alloc, profile, error)?;
            Ok(Begun::Frame(frame))
        }
    }
}

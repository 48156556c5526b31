//! What is searched for a query, and what a turn of it comes to.

ghost use Rattle.std.specs.Prelude.{◌≡◌, ◌<◌, List, ℕ, IfOk, Ok, Some, length, slice_get};
ghost use Rattle.item_list.specs.Turns.{Says};
ghost use Rattle.profile_text.specs.Expr.{sections_in};
ghost use Rattle.profile_text.specs.Tree.{Sections};
ghost use Rattle.route_engine.specs.Jobs.{IsWithin};
ghost use Rattle.route_http.specs.Asked.{Asked};
ghost use Rattle.route_http.specs.Seen.{asked};
ghost use Rattle.route_ready.specs.World.{world_of};
ghost use Rattle.route_ready.specs.Worlds.{binding_in};
ghost use Rattle.session_answers.specs.Aims.{kind_for};
ghost use Rattle.session_answers.specs.Jobs.{AnswersTurn, AreKept, CountsDown};
ghost use Rattle.session_answers.specs.Kept.{IsFitting, IsKept, IsWanted, StayAwaited};
ghost use Rattle.session_answers.specs.Profiles.{stored_of};
ghost use Rattle.session_answers.specs.Searches.{EndsFor, GoesOnWith, IsOver, IsSearchFor, IsStageFor, IsStageOver, TellsEnd, turns_for, waits_for};
ghost use Rattle.session_answers.specs.declared.kept.KeptProfiles.{KeptProfiles};

use crate::kept::{KeptProfiles, Wanted};
use crate::makings::MAKING_QUOTA;
use crate::profiles::Profiles;
use crate::routes::route_frame;
use item_list::Turn;
use profile_text::Profile;
use route_engine::{Aim, Pending, most_for};
use route_http::{Form, Kind, Request, frame};
use route_ready::{RouteError, World, most_turns};
use std::alloc::{AllocError, Global};
use tasks::Task;

/// How much of its search a turn of a session does: so many labels, or as much of other work.
pub(crate) const WORK_QUOTA: u32 = 2000;

/// What is searched for a query, in turns.
pub struct Search {
    pub(crate) stage: Stage,
    /// The place of its profile among those that are stored.
    pub(crate) place: u32,
    pub(crate) aim: Aim,
    pub(crate) kind: Kind,
    /// How many turns it goes on for at most.
    pub(crate) left: u64,
}

impl Drop for Search {
    fn drop(self) {
        let Search {
            stage: _,
            place: _,
            aim: _,
            kind: _,
            left: _,
        } = self;
    }
}

/// How far a search is.
#[derive(Drop)]
pub(crate) enum Stage {
    /// Its profile is being made ready, at this place of the makings; then the request is searched.
    Making(usize, Request),
    /// Its request is searched.
    Searching(Pending),
}

impl Search {
    /// Does a turn of the search for a query: of the making of its profile, or 2,000 labels, or as
    /// much of other work. It goes on with a turn less, and is at its end with the frame that answers
    /// the query. An error is want of memory.
    pub fn turn(
        self,
        alloc: Global,
        world: &World,
        profiles: &Profiles,
        kept: &mut KeptProfiles,
    ) -> Result<Turn<Search, Vec<u8>>, AllocError>
        requires kept { AreKept (world_of world.now) (stored_of profiles.now) kept.old }
        requires over { IsOver (world_of world.now) kept.old self }
        requires fits { self.place < length (stored_of profiles.now) }
        ensures exact { AnswersTurn (world_of world.now) (stored_of profiles.now) kept.old kept.new
            self result }
        ensures counts { IfOk result (CountsDown self.left) }
        ensures kept { AreKept (world_of world.now) (stored_of profiles.now) kept.new }
        ensures stay { StayAwaited (world_of world.now) kept.old kept.new }
    {
        let Search {
            stage,
            place,
            aim,
            kind,
            left,
        } = self;
        match stepped(alloc, world, kept, aim, stage) {
            Turn::More(stage) => Ok(Turn::More(Search {
                stage,
                place,
                aim,
                kind,
                left: left - 1,
            })),
            Turn::Done(end) => match told(alloc, profiles.profile(place), kind, end) {
                Ok(answer) => Ok(Turn::Done(answer)),
                Err(error) => Err(error),
            },
        }
    }

    /// Whether it waits for the making at a place.
    pub fn waits_for(&self, k: usize) -> bool
        ensures exact { result ≡ waits_for self.now k }
    {
        match &self.stage {
            Stage::Making(place, _) => *place == k,
            Stage::Searching(_) => false,
        }
    }
}

/// The frame that tells what a search ended with, by its profile and the kind of its reply.
fn told(
    alloc: Global,
    profile: &Profile,
    kind: Kind,
    end: Result<Vec<u8>, RouteError>,
) -> Result<Vec<u8>, AllocError>
    ensures exact { IfOk result (λ frame. TellsEnd (sections_in profile.now) kind end frame.items) }
{
    match end {
        Ok(bytes) => frame(alloc, 200, kind, bytes.as_slice()),
        Err(error) => route_frame(alloc, profile, error),
    }
}

/// What a search comes to by a turn: how far it is then, or the bytes of the reply.
fn stepped(
    alloc: Global,
    world: &World,
    kept: &mut KeptProfiles,
    aim: Aim,
    stage: Stage,
) -> Turn<Stage, Result<Vec<u8>, RouteError>>
    requires kept { (stored : List Sections) × IsKept (world_of world.now) stored kept.old }
    requires over { (place left : ℕ) × IsStageOver (world_of world.now) kept.old place aim left stage }
    ensures kept { (stored : List Sections) → IsKept (world_of world.now) stored kept.old →
        IsKept (world_of world.now) stored kept.new }
    ensures stay { StayAwaited (world_of world.now) kept.old kept.new }
    ensures counts { (place left : ℕ) →
        IsStageOver (world_of world.now) kept.old place aim left stage →
        Says (GoesOnWith (world_of world.now) kept.new place aim left) (λ _. Unit {0}) result }
    ensures answers { (stored : List Sections) → IsKept (world_of world.now) stored kept.old →
        (place left : ℕ) → IsStageOver (world_of world.now) kept.old place aim left stage →
        (sections : Sections) → slice_get stored place ≡ Some sections → (asked : Asked) →
        IsStageFor (world_of world.now) sections aim asked stage →
        Says (IsStageFor (world_of world.now) sections aim asked)
        (EndsFor (world_of world.now) sections aim asked) result }
{
    match stage {
        Stage::Making(k, request) => match kept.turn(alloc, world, k) {
            None => Turn::More(Stage::Making(k, request)),
            Some(Ok(ready)) => match Pending::new(alloc, world, ready, aim, request) {
                Ok(pending) => Turn::More(Stage::Searching(pending)),
                Err(_) => Turn::Done(Err(RouteError::NoMemory)),
            },
            Some(Err(error)) => Turn::Done(Err(error)),
        },
        Stage::Searching(pending) => match pending.take_turn(alloc, world, WORK_QUOTA) {
            Turn::More(pending) => Turn::More(Stage::Searching(pending)),
            Turn::Done(end) => Turn::Done(end),
        },
    }
}

/// The search for a request, by what it is asked for and by its profile, which is stored at a place:
/// as it is ready, or as it is being made ready. An error is want of memory.
pub(crate) fn search_for(
    alloc: Global,
    world: &World,
    wanted: Wanted,
    place: u32,
    aim: Aim,
    request: Request,
) -> Result<Search, AllocError>
    requires fits { IsFitting (world_of world.now) wanted }
    requires within { IsWithin (asked request) }
    ensures begins { let request = asked request in (kept : KeptProfiles) (sections : Sections) →
        IsWanted (world_of world.now)
        (binding_in (world_of world.now) sections request.overrides) place request.overrides kept
        (Ok wanted) →
        IfOk result (IsSearchFor (world_of world.now) sections kept aim request) }
    ensures fresh { let request = asked request in IfOk result (λ search.
        (search.left ≡ turns_for (world_of world.now) aim request) × (search.place ≡ place)) }
{
    let kind = kind_for(aim, request.form);
    let left = turns_for(world, aim, &request);
    let stage = stage_for(alloc, world, wanted, aim, request)?;
    Ok(Search {
        stage,
        place,
        aim,
        kind,
        left,
    })
}

/// How many turns the search for a request goes on for at most.
fn turns_for(world: &World, aim: Aim, request: &Request) -> u64
    requires within { IsWithin (asked request.now) }
    ensures exact { result ≡ turns_for (world_of world.now) aim (asked request.now) }
{
    let making = most_turns(world, MAKING_QUOTA);
    let search = most_for(world, aim, request) / WORK_QUOTA as u64;
    making + 2 + search
}

/// How far the search for a request is at first.
fn stage_for(
    alloc: Global,
    world: &World,
    wanted: Wanted,
    aim: Aim,
    request: Request,
) -> Result<Stage, AllocError>
    requires fits { IsFitting (world_of world.now) wanted }
    requires within { IsWithin (asked request) }
    ensures begins { let request = asked request in
        (kept : KeptProfiles) (sections : Sections) (place : ℕ) →
        IsWanted (world_of world.now)
        (binding_in (world_of world.now) sections request.overrides) place request.overrides kept
        (Ok wanted) →
        IfOk result (λ stage. IsStageOver (world_of world.now) kept place aim
        (turns_for (world_of world.now) aim request) stage
        × IsStageFor (world_of world.now) sections aim request stage) }
{
    match wanted {
        Wanted::Ready(ready) => match Pending::new(alloc, world, ready, aim, request) {
            Ok(pending) => Ok(Stage::Searching(pending)),
            Err(error) => Err(error),
        },
        Wanted::Making(k) => Ok(Stage::Making(k, request)),
    }
}

/// The kind of a reply: that of a track and of what lies within a cost goes by its form, those of a
/// table and of a certificate are one.
fn kind_for(aim: Aim, form: Form) -> Kind
    ensures exact { result ≡ kind_for aim form }
{
    match aim {
        Aim::Track | Aim::Within => match form {
            Form::GeoJson => Kind::Json,
            Form::Csv => Kind::Csv,
        },
        Aim::Table => Kind::Json,
        Aim::Certificate => Kind::Plain,
    }
}

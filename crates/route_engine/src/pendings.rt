//! A request of any kind that is answered in turns, as one type.

ghost use Rattle.std.specs.Prelude.{◌≡◌, ◌/◌, ◌≤◌, ℕ, suc, IfOk, Result, Vec, length};
ghost use Rattle.std.specs.declared.alloc.Global.{Global as TheGlobal};
ghost use Rattle.profile_text.specs.Tree.{Sections};
ghost use Rattle.route_engine.specs.Aims.{TellsTo, most_for};
ghost use Rattle.route_engine.specs.Jobs.{IsWithin};
ghost use Rattle.route_engine.specs.Pendings.{EndsAs, IsPendingOver, turns_of};
ghost use Rattle.route_engine.specs.Replies.{IsReady, bytes_in, question_of};
ghost use Rattle.route_http.specs.Seen.{asked};
ghost use Rattle.route_ready.specs.Fits.{FitsMap};
ghost use Rattle.route_ready.specs.World.{world_of};
ghost use Rattle.route_ready.specs.declared.error.RouteError.{RouteError as TheRouteError};

use crate::aim::Aim;
use crate::asking::{Asking, turned};
use crate::certificate::CertificateJob;
use crate::job::Job;
use crate::nearby_text::NearbyText;
use crate::placing::Placing;
use crate::table::TableJob;
use crate::within::WithinJob;
use item_list::Turn;
use route_http::Request;
use route_ready::{Ready, RouteError, World};
use std::alloc::{AllocError, Global};
use std::rc::Rc;
use tasks::{Chain, Task};

/// A request of any kind that is answered in turns.
#[derive(Drop)]
pub enum Pending {
    Track(Chain<Placing, Asking<Job, Vec<u8>>, Rc<Request>>),
    Table(Chain<Placing, Asking<TableJob, Vec<u8>>, Rc<Request>>),
    Certificate(Chain<Placing, Asking<CertificateJob, Vec<u8>>, Rc<Request>>),
    Within(Chain<Placing, Asking<WithinJob, NearbyText>, Rc<Request>>),
}

impl Pending {
    /// A request over a world, by what it is asked for and by a profile that was made ready for it
    /// under the request's overrides. Nothing is done yet but to make tables of its circles.
    pub fn new(
        alloc: Global,
        world: &World,
        ready: Rc<Ready>,
        aim: Aim,
        request: Request,
    ) -> Result<Pending, AllocError>
        requires fits { FitsMap (world_of world.now).map ready.value }
        requires within { IsWithin (asked request) }
        ensures over { IfOk result (IsPendingOver (world_of world.now)) }
        ensures answers { (sections : Sections) →
            IsReady (world_of world.now) sections (asked request) ready.value →
            IfOk result (λ p. (end : Result (Vec ℕ TheGlobal) TheRouteError) →
            EndsAs (world_of world.now) p end →
            TellsTo aim (question_of (world_of world.now) sections (asked request)) (bytes_in end)) }
        ensures few { IfOk result (λ p. (budget : ℕ) → turns_of (world_of world.now) budget p ≤
            suc (most_for (world_of world.now).map aim (asked request) / budget)) }
    {
        match aim {
            Aim::Track => match turned::<Job>(alloc, world, ready, request) {
                Ok(task) => Ok(Pending::Track(task)),
                Err(error) => Err(error),
            },
            Aim::Table => match turned::<TableJob>(alloc, world, ready, request) {
                Ok(task) => Ok(Pending::Table(task)),
                Err(error) => Err(error),
            },
            Aim::Certificate => match turned::<CertificateJob>(alloc, world, ready, request) {
                Ok(task) => Ok(Pending::Certificate(task)),
                Err(error) => Err(error),
            },
            Aim::Within => match turned::<WithinJob>(alloc, world, ready, request) {
                Ok(task) => Ok(Pending::Within(task)),
                Err(error) => Err(error),
            },
        }
    }
}

impl Task for Pending {
    type Data = World;

    type Answer = Result<Vec<u8>, RouteError>;

    ghost IsOver = { λ world p. IsPendingOver (world_of world) p };

    ghost answers = { λ world p end. EndsAs (world_of world) p end };

    ghost turns_left = { λ world budget p. turns_of (world_of world) budget p };

    fn take_turn(
        self,
        alloc: Global,
        dataset: &World,
        budget: u32,
    ) -> Turn<Pending, Result<Vec<u8>, RouteError>> {
        match self {
            Pending::Track(task) => match task.take_turn(alloc, dataset, budget) {
                Turn::More(next) => Turn::More(Pending::Track(next)),
                Turn::Done(end) => Turn::Done(end),
            },
            Pending::Table(task) => match task.take_turn(alloc, dataset, budget) {
                Turn::More(next) => Turn::More(Pending::Table(next)),
                Turn::Done(end) => Turn::Done(end),
            },
            Pending::Certificate(task) => match task.take_turn(alloc, dataset, budget) {
                Turn::More(next) => Turn::More(Pending::Certificate(next)),
                Turn::Done(end) => Turn::Done(end),
            },
            Pending::Within(task) => match task.take_turn(alloc, dataset, budget) {
                Turn::More(next) => Turn::More(Pending::Within(next)),
                Turn::Done(end) => Turn::Done(end),
            },
        }
    }
}

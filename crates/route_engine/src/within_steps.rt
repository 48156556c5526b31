//! A job of what lies within a cost goes on by the beginning of the search from its next waypoint, by
//! a turn of that search, or by a step of the list of what that told.

ghost use Rattle.std.specs.Prelude.{◌≡◌, ◌≤◌, length};
ghost use Rattle.cost_table.specs.Reaches.{AnswersReach};
ghost use Rattle.item_list.specs.Turns.{Says};
ghost use Rattle.route_engine.specs.Jobs.{IsPlanOn, plan_of};
ghost use Rattle.route_engine.specs.Nearby.{AreFirstNearby, lists_in};
ghost use Rattle.route_engine.specs.NearbyJobs.{IsListMore, IsNextList, IsNextListing, IsWantOfMemory, LeavesText, StepsNearby, TurnsNearby};
ghost use Rattle.route_engine.specs.Sources.{quest_in};
ghost use Rattle.route_engine.specs.declared.within.NextList.TheVariants.{New, Searching, Listed};
ghost use Rattle.route_ready.specs.World.{world_of};

use crate::begin::terrain;
use crate::listing::{LOOKS, Listing, Looked};
use crate::plan::JobPlan;
use crate::sources::{Source, SourceTurn, source_of};
use crate::table_steps::spent;
use crate::within::{Nearby, NextList, WithinJob};
use cost_table::{ReachTurn, Want};
use item_list::Turn;
use route_ready::{RouteError, World};
use std::alloc::Global;
use tasks::Stepped;

/// The job goes on by a turn of the search from its next waypoint, which settles at most `quota`
/// labels.
pub(crate) fn gone_on(
    alloc: Global,
    world: &World,
    plan: JobPlan,
    lists: Vec<Vec<(u32, u128)>>,
    source: Source,
    quota: u32,
) -> Stepped<WithinJob, Result<Nearby, RouteError>>
    requires on { IsPlanOn (world_of world.now) plan }
    requires first { let plan = plan_of (world_of world.now) plan in
        AreFirstNearby plan plan.cost (length lists.items) (lists_in lists.items) }
    requires next { IsNextList (plan_of (world_of world.now) plan) (length lists.items) source }
    requires some { 1 ≤ quota }
    ensures steps { StepsNearby (world_of world.now) quota
        (record { alloc = alloc; plan = plan; lists = lists; next = Searching source }) result }
    ensures leaves { LeavesText (world_of world.now)
        (record { alloc = alloc; plan = plan; lists = lists; next = Searching source }) result }
{
    let turned = source.turn(terrain(world, &plan), world.map(), quota);
    match turned {
        Ok(
            SourceTurn {
                settled,
                turn,
                source,
            },
        ) => Stepped {
            spent: settled,
            turn: turned_to(alloc, world, plan, lists, source, turn),
        },
        Err(_) => Stepped {
            spent: 0,
            turn: Turn::Done(Err(RouteError::NoMemory)),
        },
    }
}

/// The job behind a turn of the search from its next waypoint.
fn turned_to(
    alloc: Global,
    world: &World,
    plan: JobPlan,
    lists: Vec<Vec<(u32, u128)>>,
    source: Source,
    turn: ReachTurn,
) -> Turn<WithinJob, Result<Nearby, RouteError>>
    requires on { IsPlanOn (world_of world.now) plan }
    requires first { let plan = plan_of (world_of world.now) plan in
        AreFirstNearby plan plan.cost (length lists.items) (lists_in lists.items) }
    requires next { IsNextList (plan_of (world_of world.now) plan) (length lists.items) source }
    requires answers { let plan = plan_of (world_of world.now) plan in
        AnswersReach (quest_in plan.setting.terrain source) source.reach turn }
    ensures turns { TurnsNearby (world_of world.now)
        (record { alloc = alloc; plan = plan; lists = lists; next = Searching source }) turn result }
{
    match turn {
        ReachTurn::More => Turn::More(WithinJob {
            alloc,
            plan,
            lists,
            next: NextList::Searching(source),
        }),
        ReachTurn::Budget => Turn::Done(Err(spent(lists.len()))),
        ReachTurn::Done => {
            let Source { kept: _, reach } = source;
            match Listing::new(alloc, reach, world.map().nodes()) {
                Ok(listing) => Turn::More(WithinJob {
                    alloc,
                    plan,
                    lists,
                    next: NextList::Listed(listing),
                }),
                Err(_) => Turn::Done(Err(RouteError::NoMemory)),
            }
        }
    }
}

/// The job goes on by a step of the list of what the search from its next waypoint told, which looks
/// at most at `quota` nodes.
pub(crate) fn listed_on(
    alloc: Global,
    world: &World,
    plan: JobPlan,
    lists: Vec<Vec<(u32, u128)>>,
    listing: Listing,
    quota: u32,
) -> Stepped<WithinJob, Result<Nearby, RouteError>>
    requires on { IsPlanOn (world_of world.now) plan }
    requires first { let plan = plan_of (world_of world.now) plan in
        AreFirstNearby plan plan.cost (length lists.items) (lists_in lists.items) }
    requires next { IsNextListing (length (world_of world.now).map.nodes)
        (plan_of (world_of world.now) plan) (length lists.items) listing }
    requires some { 1 ≤ quota }
    ensures steps { StepsNearby (world_of world.now) quota
        (record { alloc = alloc; plan = plan; lists = lists; next = Listed listing }) result }
    ensures leaves { LeavesText (world_of world.now)
        (record { alloc = alloc; plan = plan; lists = lists; next = Listed listing }) result }
{
    let nodes = world.map().nodes();
    if listing.node == nodes {
        return Stepped {
            spent: 0,
            turn: with_list(alloc, world, plan, lists, listing),
        };
    }
    match listing.looked(nodes, LOOKS.min(quota)) {
        Ok(Looked { spent, listing }) => Stepped {
            spent,
            turn: Turn::More(WithinJob {
                alloc,
                plan,
                lists,
                next: NextList::Listed(listing),
            }),
        },
        Err(_) => Stepped {
            spent: 0,
            turn: Turn::Done(Err(RouteError::NoMemory)),
        },
    }
}

/// The job with a list more: the one of its next waypoint, which is at its end.
fn with_list(
    alloc: Global,
    _world: &World,
    plan: JobPlan,
    lists: Vec<Vec<(u32, u128)>>,
    listing: Listing,
) -> Turn<WithinJob, Result<Nearby, RouteError>>
    requires on { IsPlanOn (world_of _world.now) plan }
    requires first { let plan = plan_of (world_of _world.now) plan in
        AreFirstNearby plan plan.cost (length lists.items) (lists_in lists.items) }
    requires next { IsNextListing (length (world_of _world.now).map.nodes)
        (plan_of (world_of _world.now) plan) (length lists.items) listing }
    requires whole { listing.node ≡ length (world_of _world.now).map.nodes }
    ensures more { Says (IsListMore (world_of _world.now) plan (length lists.items)) IsWantOfMemory
        result }
{
    let mut lists = lists;
    match lists.push(listing.into_list()) {
        Ok(()) => Turn::More(WithinJob {
            alloc,
            plan,
            lists,
            next: NextList::New,
        }),
        Err(_) => Turn::Done(Err(RouteError::NoMemory)),
    }
}

/// The job goes on by the beginning of the search from its next waypoint; or it is at its end, where
/// no waypoint is left.
pub(crate) fn begun(
    alloc: Global,
    world: &World,
    plan: JobPlan,
    lists: Vec<Vec<(u32, u128)>>,
    _quota: u32,
) -> Stepped<WithinJob, Result<Nearby, RouteError>>
    requires on { IsPlanOn (world_of world.now) plan }
    requires first { let plan = plan_of (world_of world.now) plan in
        AreFirstNearby plan plan.cost (length lists.items) (lists_in lists.items) }
    requires fit { length lists.items ≤ length plan.nodes }
    requires some { 1 ≤ _quota }
    ensures steps { StepsNearby (world_of world.now) _quota
        (record { alloc = alloc; plan = plan; lists = lists; next = New }) result }
    ensures leaves { LeavesText (world_of world.now)
        (record { alloc = alloc; plan = plan; lists = lists; next = New }) result }
{
    let number = lists.len();
    if number == plan.nodes.len() {
        let cost = plan.cost;
        return Stepped {
            spent: 0,
            turn: Turn::Done(Ok(Nearby { cost, lists })),
        };
    }
    match source_of(alloc, world, &plan, number, Want::Within(plan.cost as u128)) {
        Ok(source) => Stepped {
            spent: 0,
            turn: Turn::More(WithinJob {
                alloc,
                plan,
                lists,
                next: NextList::Searching(source),
            }),
        },
        Err(_) => Stepped {
            spent: 0,
            turn: Turn::Done(Err(RouteError::NoMemory)),
        },
    }
}

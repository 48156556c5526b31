//! What a request is asked for.

ghost use Rattle.std.specs.Prelude.{◌≡◌, ◌<◌, ◌≤◌, ◌^◌, length};
ghost use Rattle.least_sums.specs.Findings.{most_found};
ghost use Rattle.route_engine.specs.Aims.{most_for, searching_for};
ghost use Rattle.route_engine.specs.Jobs.{IsWithin};
ghost use Rattle.route_engine.specs.Numbers.{rows_of};
ghost use Rattle.route_engine.specs.Placings.{placing_for};
ghost use Rattle.route_http.specs.Seen.{asked};
ghost use Rattle.route_ready.specs.World.{world_of};

use crate::advance::BEGINNING;
use crate::placing_steps::MOVING;
use leg_search::FIRST_LABELS;
use route_http::Request;
use route_ready::World;

/// What a request is asked for.
#[derive(Clone, Copy)]
pub enum Aim {
    /// A track through its waypoints.
    Track,
    /// The table of the costs between its waypoints.
    Table,
    /// The certificate of its track, by the least sums of what still has to be paid.
    Certificate,
    /// What lies within its cost of its waypoints.
    Within,
}

/// The most that is counted for what is asked of a request over a world: links that are judged,
/// waypoints that are moved, labels that are settled, steps of finding what still has to be paid,
/// nodes that are looked at for a list, and rows that are written.
pub fn most_for(world: &World, aim: Aim, request: &Request) -> u64
    requires within { IsWithin (asked request.now) }
    ensures exact { result ≡
        most_for (world_of world.now).map aim (asked request.now) }
    ensures small { result < 2 ^ 43 }
{
    placing_for(world, request) + searching_for(world, aim, request)
}

/// The most that is counted until the waypoints of a request have their nodes.
fn placing_for(world: &World, request: &Request) -> u64
    requires within { IsWithin (asked request.now) }
    ensures exact { result ≡
        placing_for (length (world_of world.now).map.links) (asked request.now) }
    ensures small { result < 2 ^ 42 }
{
    let links = if request.circles.len() == 0 {
        0
    } else {
        world.map().links() as u64
    };
    links + request.waypoints.len() as u64 * MOVING as u64
}

/// The most that is counted for what is asked of a request over a world, once its waypoints have
/// their nodes.
fn searching_for(world: &World, aim: Aim, request: &Request) -> u64
    requires within { IsWithin (asked request.now) }
    ensures exact { result ≡
        searching_for (world_of world.now).map aim (asked request.now) }
    ensures small { result < 2 ^ 42 }
{
    let waypoints = request.waypoints.len() as u64;
    let labels = request.labels;
    match aim {
        Aim::Track => {
            let walks = (waypoints - 1) * (request.alternative as u64 + 1);
            walks * (2 * most_found(world) + FIRST_LABELS + 2 * labels + BEGINNING as u64)
        }
        Aim::Table => rows_for(request) * labels,
        Aim::Within => {
            let nodes = world.map().nodes() as u64;
            waypoints * (labels + nodes) + (waypoints * (3 * nodes + 4) + 1)
        }
        Aim::Certificate => (waypoints - 1) * (BEGINNING as u64 + most_found(world) + labels),
    }
}

/// How many rows a table of a request has.
fn rows_for(request: &Request) -> u64
    requires within { IsWithin (asked request.now) }
    ensures exact { result ≡ length (rows_of (asked request.now)) }
    ensures small { result ≤ 100 }
{
    let sources = request.sources.len();
    if sources == 0 {
        request.waypoints.len() as u64
    } else {
        sources as u64
    }
}

/// The most steps in which what still has to be paid on a leg is found.
fn most_found(world: &World) -> u64
    ensures exact { result ≡ most_found (length (world_of world.now).map.links) }
    ensures small { result ≤ 536870912 }
{
    world.map().links() as u64 / 8 + 1
}

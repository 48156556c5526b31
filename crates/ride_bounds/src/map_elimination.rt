//! The hierarchy of a map, made in steps.

ghost use Rattle.std.specs.Prelude.{◌≡◌, IfOk, IfSome, length};
ghost use Rattle.item_list.specs.Turns.{Says};
ghost use Rattle.overpass_graph.specs.Maps.{roads_of};
ghost use Rattle.ride_bounds.specs.Hierarchies.{IsCollecting, IsEliminating, IsHolding, IsMapElimination, IsMapHierarchy};

use crate::collecting::Collecting;
use crate::eliminating::Eliminating;
use crate::hierarchy::MapHierarchy;
use crate::holding::Holding;
use item_list::Turn;
use link_order::LinkOrder;
use overpass_graph::Map;
use std::alloc::{AllocError, Global};

/// How many turns a link may have.
const MOST_TURNS: usize = 40;

/// The hierarchy of a map before its end. It borrows nothing: each step is given the map again.
#[derive(Drop)]
pub enum MapElimination {
    Collecting(Collecting),
    Holding(Holding),
    Eliminating(Eliminating),
}

impl MapElimination {
    /// The hierarchy of a map, of which nothing is made.
    pub fn new(alloc: Global, map: &Map, order: LinkOrder) -> MapElimination
        requires counted { length order.links ≡ length map.now.links }
        ensures on { IsMapElimination (roads_of map.now) result }
    {
        let _links = map.links();
        MapElimination::Collecting(Collecting {
            order,
            turns: Vec::new(alloc),
            place: 0,
            next: 0,
        })
    }

    /// Does a little more of the work, or ends with the hierarchy; with none where the map would have
    /// too large a one.
    pub fn step(
        self,
        alloc: Global,
        map: &Map,
    ) -> Result<Turn<MapElimination, Option<MapHierarchy>>, AllocError>
        requires on { IsMapElimination (roads_of map.now) self }
        ensures steps { IfOk result (Says (IsMapElimination (roads_of map.now))
            (λ made. IfSome made (IsMapHierarchy (roads_of map.now)))) }
    {
        match self {
            MapElimination::Collecting(it) => collect(it, alloc, map),
            MapElimination::Holding(it) => hold(it, alloc, map),
            MapElimination::Eliminating(it) => eliminate(it, alloc, map),
        }
    }
}

/// Looks at one more pair of links, or at none where all were looked at.
fn collect(
    it: Collecting,
    alloc: Global,
    map: &Map,
) -> Result<Turn<MapElimination, Option<MapHierarchy>>, AllocError>
    requires on { IsCollecting (roads_of map.now) it }
    ensures steps { IfOk result (Says (IsMapElimination (roads_of map.now))
        (λ made. IfSome made (IsMapHierarchy (roads_of map.now)))) }
{
    let mut it = it;
    if it.place == map.links() {
        return Ok(Turn::More(MapElimination::Holding(it.held(alloc, map)?)));
    }
    if it.turns.len() / MOST_TURNS > map.links() as usize {
        return Ok(Turn::Done(None));
    }
    it.look(map)?;
    Ok(Turn::More(MapElimination::Collecting(it)))
}

/// The rows take one more turn, or the elimination begins.
fn hold(
    it: Holding,
    alloc: Global,
    map: &Map,
) -> Result<Turn<MapElimination, Option<MapHierarchy>>, AllocError>
    requires on { IsHolding (roads_of map.now) it }
    ensures steps { IfOk result (Says (IsMapElimination (roads_of map.now))
        (λ made. IfSome made (IsMapHierarchy (roads_of map.now)))) }
{
    let mut it = it;
    if it.has_all(map) {
        return Ok(Turn::More(MapElimination::Eliminating(it.eliminated(alloc, map)?)));
    }
    it.take(alloc, map)?;
    Ok(Turn::More(MapElimination::Holding(it)))
}

/// One step of the elimination, or its end.
fn eliminate(
    it: Eliminating,
    alloc: Global,
    map: &Map,
) -> Result<Turn<MapElimination, Option<MapHierarchy>>, AllocError>
    requires on { IsEliminating (roads_of map.now) it }
    ensures steps { IfOk result (Says (IsMapElimination (roads_of map.now))
        (λ made. IfSome made (IsMapHierarchy (roads_of map.now)))) }
{
    let mut it = it;
    if it.is_over(map) {
        return Ok(Turn::Done(Some(it.finish(map))));
    }
    if it.go_on(alloc, map)? {
        Ok(Turn::More(MapElimination::Eliminating(it)))
    } else {
        Ok(Turn::Done(None))
    }
}

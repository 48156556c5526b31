//! The hierarchy of a map, made in spells.

ghost use Rattle.std.specs.Prelude.{◌≡◌, ◌<◌, ◌≤◌, IfSome, false, length, true};
ghost use Rattle.std.specs.Option.{option_copied};
ghost use Rattle.link_order.specs.Orderings.{links_of};
ghost use Rattle.map_guides.specs.Hierarchies.{IsHierarchyMaking, IsOnward, OrdersFewer, is_over_of, made_of, stage_of};
ghost use Rattle.overpass_graph.specs.Maps.{roads_of};
ghost use Rattle.overpass_graph.specs.Roads.{Roads};
ghost use Rattle.ride_bounds.specs.Hierarchies.{IsMapElimination, IsMapHierarchy};

use item_list::Turn;
use link_order::{LinkOrder, Ordering};
use overpass_graph::Map;
use ride_bounds::{MapElimination, MapHierarchy};
use std::alloc::Global;
use std::rc::Rc;

/// How many steps of an ordering a spell does.
const ORDER_STEPS: u32 = 4;

/// How many steps of an elimination a spell does.
const ELIMINATION_STEPS: u32 = 4096;

/// The hierarchy of one map, as far as it is made. It borrows nothing: each spell is given the map
/// again.
pub enum HierarchyMaking {
    /// Nothing is made yet.
    Unbegun,
    /// The links are put in order.
    Ordering(Ordering),
    /// The links are eliminated in their order.
    Eliminating(MapElimination),
    /// It is made.
    Made(Rc<MapHierarchy>),
    /// It is given up: the map would have too large a one, or memory ran out.
    GivenUp,
}

impl Drop for HierarchyMaking {
    fn drop(self) {
        match self {
            HierarchyMaking::Unbegun => {}
            HierarchyMaking::Ordering(_) => {}
            HierarchyMaking::Eliminating(_) => {}
            HierarchyMaking::Made(_) => {}
            HierarchyMaking::GivenUp => {}
        }
    }
}

impl HierarchyMaking {
    /// A hierarchy of which nothing is made.
    pub fn new() -> HierarchyMaking
        ensures on { (roads : Roads) → IsHierarchyMaking roads result }
        ensures none { is_over_of result ≡ false }
    {
        HierarchyMaking::Unbegun
    }

    /// Goes on for a spell: it never goes back, and what is over stays as it is.
    pub fn go_on(self, alloc: Global, map: &Map) -> HierarchyMaking
        requires on { IsHierarchyMaking (roads_of map.now) self }
        ensures on { IsHierarchyMaking (roads_of map.now) result }
        ensures begun { 0 < stage_of result }
        ensures onward { IsOnward self result }
        ensures over { is_over_of self ≡ true → result ≡ self }
    {
        match self {
            HierarchyMaking::Unbegun => begun(alloc, map),
            HierarchyMaking::Ordering(it) => ordered(it, alloc, map),
            HierarchyMaking::Eliminating(it) => eliminated(it, alloc, map),
            HierarchyMaking::Made(it) => HierarchyMaking::Made(it),
            HierarchyMaking::GivenUp => HierarchyMaking::GivenUp,
        }
    }

    /// Whether it is made or given up.
    pub fn is_over(&self) -> bool
        ensures exact { result ≡ is_over_of self.now }
    {
        match self {
            HierarchyMaking::Made(_) => true,
            HierarchyMaking::GivenUp => true,
            _ => false,
        }
    }

    /// The hierarchy, where it is made.
    pub fn hierarchy(&self) -> Option<&Rc<MapHierarchy>>
        ensures exact { option_copied result ≡ made_of self.now }
    {
        match self {
            HierarchyMaking::Made(it) => Some(it),
            _ => None,
        }
    }
}

/// Begins to put the links in order.
fn begun(alloc: Global, map: &Map) -> HierarchyMaking
    ensures begun { 0 < stage_of result }
    ensures on { IsHierarchyMaking (roads_of map.now) result }
{
    match Ordering::new(alloc, map) {
        Ok(it) => HierarchyMaking::Ordering(it),
        Err(_) => HierarchyMaking::GivenUp,
    }
}

/// A spell of an ordering; at its end the elimination begins.
fn ordered(it: Ordering, alloc: Global, map: &Map) -> HierarchyMaking
    requires links { links_of it ≡ length map.now.links }
    ensures begun { 0 < stage_of result }
    ensures fewer { OrdersFewer it result }
    ensures on { IsHierarchyMaking (roads_of map.now) result }
{
    let mut ordering = it;
    'steps: for step in 0..ORDER_STEPS {
        let _ = step;
        match ordering.step(alloc, map) {
            Ok(Turn::More(next)) => ordering = next,
            Ok(Turn::Done(order)) => return eliminating(order, alloc, map),
            Err(_) => return HierarchyMaking::GivenUp,
        }
    }
    HierarchyMaking::Ordering(ordering)
}

/// The links are in order: their elimination begins.
fn eliminating(order: LinkOrder, alloc: Global, map: &Map) -> HierarchyMaking
    requires counted { length order.links ≡ length map.now.links }
    ensures stage { stage_of result ≡ 2 }
    ensures on { IsHierarchyMaking (roads_of map.now) result }
{
    HierarchyMaking::Eliminating(MapElimination::new(alloc, map, order))
}

/// A spell of an elimination; at its end the hierarchy is made, or given up.
fn eliminated(it: MapElimination, alloc: Global, map: &Map) -> HierarchyMaking
    requires on { IsMapElimination (roads_of map.now) it }
    ensures onward { 2 ≤ stage_of result }
    ensures on { IsHierarchyMaking (roads_of map.now) result }
{
    let mut elimination = it;
    'steps: for _ in 0..ELIMINATION_STEPS {
        match elimination.step(alloc, map) {
            Ok(Turn::More(next)) => elimination = next,
            Ok(Turn::Done(end)) => return ended(end, alloc, map),
            Err(_) => return HierarchyMaking::GivenUp,
        }
    }
    HierarchyMaking::Eliminating(elimination)
}

/// What an elimination ended with, to be shared.
fn ended(end: Option<MapHierarchy>, alloc: Global, _map: &Map) -> HierarchyMaking
    requires is { IfSome end (IsMapHierarchy (roads_of _map.now)) }
    ensures over { is_over_of result ≡ true }
    ensures onward { 2 ≤ stage_of result }
    ensures on { IsHierarchyMaking (roads_of _map.now) result }
{
    match end {
        Some(hierarchy) => match Rc::new(alloc, hierarchy) {
            Ok(it) => HierarchyMaking::Made(it),
            Err(_) => HierarchyMaking::GivenUp,
        },
        None => HierarchyMaking::GivenUp,
    }
}

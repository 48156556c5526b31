//! The guides of kept profiles, while they are made.

ghost use Rattle.std.specs.Prelude.{◌≡◌, IfOk, List, None};
ghost use Rattle.item_list.specs.Turns.{Says};
ghost use Rattle.map_guides.specs.Hierarchies.{IsHierarchyMaking};
ghost use Rattle.overpass_graph.specs.Maps.{roads_of};
ghost use Rattle.overpass_graph.specs.Roads.{Roads};
ghost use Rattle.profile_text.specs.Tree.{Sections};
ghost use Rattle.ride_bounds.specs.Hierarchies.{IsMapHierarchy};
ghost use Rattle.route_ready.specs.Fits.{FitsMap, HasSameTerms};
ghost use Rattle.route_ready.specs.World.{world_of};
ghost use Rattle.session_answers.specs.Guiding.{IsGuidedBy, IsTargetFor};
ghost use Rattle.session_answers.specs.Kept.{IsMadeFrom, IsTarget};

use crate::key::Key;
use item_list::Turn;
use map_guides::{GuideMaking, HierarchyMaking};
use overpass_graph::Map;
use ride_bounds::{Guide, MapHierarchy};
use route_ready::{Ready, World};
use std::alloc::{AllocError, Global};
use std::mem::replace;
use std::rc::Rc;

/// The guides of kept profiles: the hierarchy of the map, which all share, and the one that is made
/// now.
pub(crate) struct Guides {
    /// How many kept profiles have a guide at most; none are made where it is 0.
    pub(crate) most: u64,
    /// The hierarchy of the map, as far as it is made.
    pub(crate) hierarchy: HierarchyMaking,
    /// The profile whose guide is made now.
    pub(crate) target: Option<Target>,
}

impl Drop for Guides {
    fn drop(self) {
        let Guides {
            most: _,
            hierarchy: _,
            target: _,
        } = self;
    }
}

impl Guides {
    /// So many at most, of which nothing is made.
    pub(crate) fn new(most: u64) -> Guides
        ensures none { result.target ≡ None }
        ensures hierarchy { (roads : Roads) → IsHierarchyMaking roads result.hierarchy }
    {
        Guides {
            most,
            hierarchy: HierarchyMaking::new(),
            target: None,
        }
    }

    /// Goes on with the hierarchy for a spell.
    pub(crate) fn make_hierarchy(&mut self, alloc: Global, map: &Map)
        requires on { IsHierarchyMaking (roads_of map.now) self.old.hierarchy }
        ensures on { IsHierarchyMaking (roads_of map.now) self.new.hierarchy }
        ensures target { self.new.target ≡ self.old.target }
    {
        let making = replace(&mut self.hierarchy, HierarchyMaking::new());
        self.hierarchy = making.go_on(alloc, map);
    }
}

/// A kept profile whose guide is made.
pub(crate) struct Target {
    /// The key under which the profile is kept.
    pub(crate) key: Key,
    /// The profile as it is ready without the guide.
    pub(crate) ready: Rc<Ready>,
    /// Its guide, as far as it is made.
    pub(crate) making: GuideMaking,
}

impl Drop for Target {
    fn drop(self) {
        let Target {
            key: _,
            ready: _,
            making: _,
        } = self;
    }
}

impl Target {
    /// The profile of a key, of whose guide nothing is made.
    pub(crate) fn new(
        alloc: Global,
        hierarchy: &Rc<MapHierarchy>,
        key: Key,
        ready: &Rc<Ready>,
        map: &Map,
    ) -> Result<Target, AllocError>
        requires is { IsMapHierarchy (roads_of map.now) hierarchy.now.value }
        requires fits { FitsMap map.now ready.now.value }
        ensures is { IfOk result (IsTargetFor map.now key ready.now.value) }
    {
        let making = GuideMaking::new(alloc, hierarchy, ready, map)?;
        let ready = ready.clone()?;
        Ok(Target { key, ready, making })
    }

    /// Goes on with the guide for a spell, or ends with the profile that has it, and its key.
    pub(crate) fn go_on(
        self,
        alloc: Global,
        world: &World,
    ) -> Result<Turn<Target, (Key, Rc<Ready>)>, AllocError>
        requires on { (stored : List Sections) × IsTarget (world_of world.now) stored self }
        ensures steps { (stored : List Sections) → IsTarget (world_of world.now) stored self →
            IfOk result (Says (IsTarget (world_of world.now) stored)
            (λ made. IsMadeFrom (world_of world.now) stored made.0 made.1.value)) }
    {
        let Target { key, ready, making } = self;
        match making.go_on(alloc, world.map())? {
            Turn::More(making) => Ok(Turn::More(Target { key, ready, making })),
            Turn::Done(guide) => Ok(Turn::Done((key, guided(alloc, &ready, guide)?))),
        }
    }
}

/// A profile with its guide, to be shared.
fn guided(alloc: Global, ready: &Ready, guide: Guide) -> Result<Rc<Ready>, AllocError>
    ensures same { IfOk result (λ shared. HasSameTerms ready.now shared.value) }
    ensures guide { IfOk result (λ shared. IsGuidedBy guide shared.value) }
{
    let guide = Rc::new(alloc, guide)?;
    let ready = ready.guided(guide)?;
    Ok(Rc::new(alloc, ready)?)
}

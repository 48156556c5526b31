//! Lower bounds of what a ride still has to pay, for one leg after another.

ghost use Rattle.std.specs.Prelude.{◌≡◌, ◌<◌, IfOk, OnOk, length};
ghost use Rattle.link_hierarchy.specs.Potentials.{HasRoom};
ghost use Rattle.ride_bounds.specs.Bounds.{millionths_of};
ghost use Rattle.ride_bounds.specs.Guides.{IsBoundBy, IsGuide, low_by};

use crate::guide::Guide;
use crate::hierarchy::MapHierarchy;
use crate::targets::targets;
use cost_model::TerrainOf;
use link_hierarchy::Potentials;
use std::alloc::{AllocError, Global};

/// What is found of the bounds for one target. The memory is taken once; another target puts back
/// what was set for the one before.
pub struct LegBound {
    pub(crate) found: Potentials,
}

impl Drop for LegBound {
    fn drop(self) {
        let LegBound { found: _ } = self;
    }
}

impl LegBound {
    /// Memory for the bounds by a hierarchy, with no target yet.
    pub fn new(alloc: Global, hierarchy: &MapHierarchy) -> Result<LegBound, AllocError>
        ensures room { IfOk result (λ leg. HasRoom hierarchy.now.topology leg.found) }
    {
        Ok(LegBound {
            found: Potentials::new(alloc, &hierarchy.topology)?,
        })
    }

    /// Asks for another target.
    pub fn retarget<G: TerrainOf>(
        &mut self,
        alloc: Global,
        terrain: &G,
        guide: &Guide,
        target: u32,
    ) -> Result<(), AllocError>
        requires fits { IsGuide (G.terrain terrain.now) guide.now }
        requires room { HasRoom guide.now.hierarchy.value.topology self.old.found }
        requires in_range { target < length (G.terrain terrain.now).map.nodes }
        ensures on { OnOk result
            (IsBoundBy (G.terrain terrain.now) guide.now target self.new) }
        ensures room { HasRoom guide.now.hierarchy.value.topology self.new.found }
    {
        let hierarchy = &*guide.hierarchy;
        let _nodes = hierarchy.topology.nodes();
        let _places = hierarchy.order.len();
        let targets = targets(alloc, terrain.map(), &hierarchy.order, target)?;
        self.found.retarget(
            alloc,
            &hierarchy.topology,
            &guide.weights,
            targets.as_slice(),
        )
    }

    /// What a ride still has to pay at least to the target once it has entered a link, in millionths;
    /// none where the target isn't reached from there.
    pub fn at<G: TerrainOf>(
        &mut self,
        alloc: Global,
        _terrain: &G,
        guide: &Guide,
        _target: u32,
        link: u32,
    ) -> Result<Option<u128>, AllocError>
        requires fits { IsGuide (G.terrain _terrain.now) guide.now }
        requires on { IsBoundBy (G.terrain _terrain.now) guide.now _target self.old }
        requires in_range { link < length (G.terrain _terrain.now).map.links }
        ensures value { IfOk result (λ rest.
            rest ≡ low_by (G.terrain _terrain.now) guide.now _target link) }
        ensures kept { IsBoundBy (G.terrain _terrain.now) guide.now _target self.new }
    {
        let hierarchy = &*guide.hierarchy;
        let place = hierarchy.order.place(link);
        let sum = self
            .found
            .at(alloc, &hierarchy.topology, &guide.weights, place)?;
        Ok(millionths(sum))
    }
}

/// A sum of weights in millionths.
fn millionths(sum: Option<u32>) -> Option<u128>
    ensures value { result ≡ millionths_of sum }
{
    match sum {
        Some(sum) => Some(sum as u128 * 1000),
        None => None,
    }
}

//! The junctions of a map, and the chains between them as arcs.

use crate::chains::Chains;
use crate::lists::{NONE, at, filled, put};
use crate::placing::Placing;
use item_list::narrow;
use overpass_graph::Map;
use std::alloc::{AllocError, Global};

/// Junctions and arcs by number. A chain is an arc at each of its ends.
pub(crate) struct Junctions {
    /// Where the arcs of each junction start, and where the last ones end.
    starts: Vec<u32>,
    /// The junction that an arc leaves.
    pub(crate) tails: Vec<u32>,
    /// The junction that an arc reaches.
    pub(crate) heads: Vec<u32>,
    /// The arc of the same chain at its other end.
    pub(crate) backs: Vec<u32>,
    /// The link of an arc.
    pub(crate) links: Vec<u32>,
    /// The arc of a link.
    arcs: Vec<u32>,
    /// Where the junctions lie from west to east: no two are at one place.
    easts: Vec<u64>,
    /// Where they lie from south to north.
    norths: Vec<u64>,
    /// The next node that is looked at.
    next: u32,
}

impl Drop for Junctions {
    fn drop(self) {
        let Junctions {
            starts: _,
            tails: _,
            heads: _,
            backs: _,
            links: _,
            arcs: _,
            easts: _,
            norths: _,
            next: _,
        } = self;
    }
}

impl Junctions {
    /// No junctions yet of a map that has so many links.
    pub(crate) fn new(alloc: Global, links: u32) -> Result<Junctions, AllocError> {
        Ok(Junctions {
            starts: filled(alloc, 0, 1)?,
            tails: Vec::new(alloc),
            heads: Vec::new(alloc),
            backs: Vec::new(alloc),
            links: Vec::new(alloc),
            arcs: filled(alloc, NONE, links)?,
            easts: Vec::new(alloc),
            norths: Vec::new(alloc),
            next: 0,
        })
    }

    /// How many there are.
    pub(crate) fn count(&self) -> Result<u32, AllocError> {
        narrow(self.easts.len())
    }

    /// How many arcs there are.
    pub(crate) fn arc_count(&self) -> Result<u32, AllocError> {
        narrow(self.links.len())
    }

    /// The arcs that leave a junction are those from the first of these on, below the second.
    #[inline(always)]
    pub(crate) fn leaving(&self, junction: u32) -> (u32, u32) {
        (
            at(&self.starts, junction, 0),
            at(&self.starts, junction.saturating_add(1), 0),
        )
    }

    /// Where a junction lies in one of the two directions.
    #[inline(always)]
    pub(crate) fn lies(&self, junction: u32, north: bool) -> u64 {
        if north {
            at(&self.norths, junction, 0)
        } else {
            at(&self.easts, junction, 0)
        }
    }

    /// Looks at the next node, which becomes a junction where more than two chains are left. How many
    /// links were looked at, or none where there is no node.
    pub(crate) fn lay(
        &mut self,
        map: &Map,
        placing: &Placing,
        chains: &Chains,
    ) -> Result<Option<u32>, AllocError> {
        let node = self.next;
        if node >= map.nodes() {
            return Ok(None);
        }
        self.next += 1;
        if chains.degree(map, node) <= 2 {
            return Ok(Some(1));
        }
        let junction = self.count()?;
        let spot = map.node_spot(node);
        self.easts
            .push(((spot.ilon as u64) << 32) + junction as u64)?;
        self.norths
            .push(((spot.ilat as u64) << 32) + junction as u64)?;
        let mut looked = 1u32;
        'links: for link in map.out_links(node) {
            self.leave(placing, junction, *link)?;
            looked = looked.saturating_add(1);
        }
        let end = self.arc_count()?;
        self.starts.push(end)?;
        Ok(Some(looked))
    }

    /// An arc leaves the newest junction by a link that waits.
    fn leave(&mut self, placing: &Placing, junction: u32, link: u32) -> Result<(), AllocError> {
        if placing.waits(link) {
            let arc = self.arc_count()?;
            put(&mut self.arcs, link, arc);
            self.links.push(link)?;
            self.tails.push(junction)?;
        }
        Ok(())
    }

    /// Finds the other end of the next arc; or tells that all are found.
    pub(crate) fn join(&mut self, chains: &Chains) -> Result<bool, AllocError> {
        let arc = self.backs.len();
        if arc >= self.links.len() {
            return Ok(true);
        }
        let back = at(&self.arcs, chains.back(self.links[arc]), NONE);
        self.backs.push(back)?;
        self.heads.push(at(&self.tails, back, NONE))?;
        Ok(false)
    }
}

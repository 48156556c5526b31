//! A space of a leg is opened in steps: what still has to be paid is found from its target backward.

ghost use Rattle.std.specs.Prelude.{◌≡◌, ◌<◌, IfOk, length};
ghost use Rattle.bike_space.specs.Kept.{Wakes, leg_asked};
ghost use Rattle.bike_space.specs.Marks.{is_marked};
ghost use Rattle.bike_space.specs.Openings.{IsOpened, IsOpening, OpensOn, left_of, leg_of, near_of, used_of};
ghost use Rattle.bike_space.specs.Remaining.{priced_by};
ghost use Rattle.item_list.specs.Turns.{Says};
ghost use Rattle.least_sums.specs.Findings.{most_found};
ghost use Rattle.least_sums.specs.Sums.{AreBelow, AreLeastSumsUpTo};
ghost use Rattle.overpass_graph.specs.Maps.{roads_of};

use crate::ask::LegAsk;
use crate::rest_prices::RestPrices;
use crate::rested::Rested;
use cost_model::TerrainOf;
use item_list::Turn;
use least_sums::{Finding, Near, Sums};
use std::alloc::{AllocError, Global};

/// What a leg was asked with, kept.
#[derive(Drop)]
pub(crate) struct Asked {
    pub(crate) cut: Vec<bool>,
    pub(crate) used: Vec<bool>,
    pub(crate) start: u32,
    pub(crate) target: u32,
    pub(crate) turns: bool,
}

/// A space of a leg before it is open: what still has to be paid at least is being found. It
/// borrows nothing: each step is given the terrain again.
pub struct Opening {
    pub(crate) finding: Finding,
    pub(crate) asked: Asked,
}

impl Drop for Opening {
    fn drop(self) {
        let Opening {
            finding: _,
            asked: _,
        } = self;
    }
}

impl Opening {
    /// The space of the walks of a leg on a terrain, of which nothing is found. What still has to be
    /// paid will be found up to a radius alone, as far as `near` says, and what is farther has that
    /// radius at least; without `near` it is found for all nodes.
    pub fn new<G: TerrainOf>(
        alloc: Global,
        terrain: &G,
        ask: &LegAsk,
        near: Option<Near>,
    ) -> Result<Opening, AllocError>
        requires start { ask.now.start < length (G.terrain terrain.now).map.nodes }
        requires target { ask.now.target < length (G.terrain terrain.now).map.nodes }
        ensures opens { IfOk result (IsOpening (G.terrain terrain.now)) }
        ensures leg { IfOk result (λ opening.
            leg_of (G.terrain terrain.now) opening ≡ leg_asked (G.terrain terrain.now) ask.now) }
        ensures used { IfOk result (λ opening. used_of opening ≡ is_marked ask.now.used.now) }
        ensures near { IfOk result (λ opening. near_of opening ≡ near) }
        ensures left { IfOk result (λ opening.
            left_of opening ≡ most_found (length (G.terrain terrain.now).map.links)) }
    {
        let asked = Asked {
            cut: Vec::from_slice(alloc, ask.cut)?,
            used: Vec::from_slice(alloc, ask.used)?,
            start: ask.start,
            target: ask.target,
            turns: ask.turns,
        };
        let finding = Finding::new(alloc, terrain.map(), ask.target, near)?;
        Ok(Opening { finding, asked })
    }

    /// Finds a little more of what still has to be paid, over the terrain that it began over.
    pub fn step<G: TerrainOf>(
        self,
        alloc: Global,
        terrain: &G,
    ) -> Result<Turn<Opening, Rested>, AllocError>
        requires opens { IsOpening (G.terrain terrain.now) self }
        ensures steps { IfOk result (Says (OpensOn (G.terrain terrain.now) self)
            (IsOpened (G.terrain terrain.now) self)) }
    {
        let Opening { finding, asked } = self;
        match finding.step(alloc, terrain.map(), &asked.prices(terrain))? {
            Turn::More(finding) => Ok(Turn::More(Opening { finding, asked })),
            Turn::Done(low) => Ok(Turn::Done(asked.rested(terrain, low))),
        }
    }

    /// Finds all that is left, over the terrain that it began over.
    pub fn finish<G: TerrainOf>(self, alloc: Global, terrain: &G) -> Result<Rested, AllocError>
        requires opens { IsOpening (G.terrain terrain.now) self }
        ensures opened { IfOk result (IsOpened (G.terrain terrain.now) self) }
    {
        let Opening { finding, asked } = self;
        let low = finding.finish(alloc, terrain.map(), &asked.prices(terrain))?;
        Ok(asked.rested(terrain, low))
    }
}

impl Asked {
    /// What each link adds to what still has to be paid.
    fn prices<'a, G: TerrainOf>(&'a self, terrain: &'a G) -> RestPrices<'a, G>
        ensures terrain { result.terrain.now ≡ terrain.now }
        ensures cut { result.cut.now ≡ self.now.cut.items }
        ensures used { result.used.now ≡ self.now.used.items }
    {
        RestPrices {
            terrain,
            cut: self.cut.as_slice(),
            used: self.used.as_slice(),
        }
    }

    /// What the space keeps where this has to be paid.
    fn rested<G: TerrainOf>(self, terrain: &G, low: Sums) -> Rested
        requires start { self.start < length (G.terrain terrain.now).map.nodes }
        requires target { self.target < length (G.terrain terrain.now).map.nodes }
        requires sums { AreLeastSumsUpTo (roads_of (G.terrain terrain.now).map)
            (priced_by (G.terrain terrain.now) self.cut.items self.used.items).price self.target low }
        requires small { AreBelow low.sums }
        ensures wakes { Wakes (G.terrain terrain.now) result }
        ensures value { result ≡ record {
          low = low;
          cut = self.cut;
          used = self.used;
          start = self.start;
          target = self.target;
          turns = self.turns;
        } }
    {
        // What the map and the rates promise of themselves.
        let map = terrain.map();
        let _links = map.links();
        let _rate = terrain.rates().down_rate();
        let Asked {
            cut,
            used,
            start,
            target,
            turns,
        } = self;
        Rested {
            low,
            cut,
            used,
            start,
            target,
            turns,
        }
    }
}

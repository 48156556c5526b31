//! The facts of the links of a terrain.

use cost_model::{FactsOf, LinkFacts, TerrainOf};

/// The facts of the links of a terrain.
#[derive(Drop)]
pub(crate) struct TerrainFacts<'a, G: TerrainOf> {
    pub(crate) terrain: &'a G,
}

impl<'a, G: TerrainOf> FactsOf for TerrainFacts<'a, G> {
    ghost links = { λ it. (G.terrain it.terrain.now).links };

    ghost sound = { λ it. G.sound it.terrain.now };

    fn count(&self) -> u32 {
        self.terrain.map().links()
    }

    fn facts(&self, link: u32) -> LinkFacts {
        self.terrain.facts(link)
    }
}

//! What is searched over.

ghost use Rattle.std.specs.Prelude.{◌≡◌, ◌<◌, length};
ghost use Rattle.cost_model.specs.Modes.{modes_of};
ghost use Rattle.way_class.specs.Links.{links_of};

use crate::timed::draws::Draws;
use crate::timed::plan::Plan;
use crate::timed::searching::{Ended, settle, word_of};
use bike_space::{BikeSpace, LegAsk};
use cost_model::{FactsOf, PricedMap, Rates, modes};
use elev_buffer::Modes;
use junction_runs::RunSpace;
use overpass_graph::Map;
use space_search::Outcome;
use std::alloc::AllocError;
use std::io;
use way_class::Bound;

/// How many labels one turn settles at most.
const QUOTA: u32 = 1048576;

/// A map, the profile that is bound to it, and marks for links of which none is set.
#[derive(Drop)]
pub(crate) struct Ground<'a> {
    map: &'a Map,
    bound: &'a Bound,
    rates: &'a Rates,
    modes: Modes,
    unmarked: Vec<bool>,
    ghost counted: { (links_of bound.now).count ≡ length map.now.links },
    ghost modes_are: { modes ≡ modes_of (links_of bound.now) },
    ghost marked: { length unmarked.items ≡ length map.now.links },
}

/// What the searches answered in all.
#[derive(Drop)]
struct Totals {
    searches: u32,
    found: u32,
    ranks: u128,
    labels: u64,
}

impl Totals {
    /// Counts a search in.
    fn add(&mut self, ended: &Ended) {
        self.searches = self.searches.wrapping_add(1);
        self.labels = self.labels.wrapping_add(ended.labels as u64);
        if matches!(ended.last, Outcome::Found(_)) {
            self.found = self.found.wrapping_add(1);
            self.ranks = self.ranks.wrapping_add(ended.rank);
        }
    }
}

impl<'a> Ground<'a> {
    /// The ground of a profile that is bound to a map; none where it isn't bound to this one.
    pub(crate) fn new(
        rt: &HostRuntime,
        map: &'a Map,
        bound: &'a Bound,
        rates: &'a Rates,
    ) -> Result<Option<Ground<'a>>, AllocError> {
        let unmarked = vec![in rt.alloc(); false; map.links() as usize]?;
        if bound.count() != map.links() || unmarked.len() != map.links() as usize {
            return Ok(None);
        }
        let modes = modes(bound);
        Ok(Some(Ground {
            map,
            bound,
            rates,
            modes,
            unmarked,
        }))
    }

    /// How a search over this space ends, from junction to junction or from link to link.
    fn settle(
        &self,
        rt: &HostRuntime,
        space: &BikeSpace<PricedMap<'a, Bound>>,
        plan: Plan,
    ) -> Result<Ended, AllocError> {
        if plan.by_runs {
            settle(
                rt.alloc(),
                &RunSpace::new(space),
                &mut (),
                QUOTA,
                plan.limit,
            )
        } else {
            settle(rt.alloc(), space, &mut (), QUOTA, plan.limit)
        }
    }

    /// How a search between two nodes ends.
    fn search(&self, rt: &HostRuntime, from: u32, to: u32, plan: Plan) -> Result<Ended, AllocError>
        requires from { from < length self.now.map.now.nodes }
        requires to { to < length self.now.map.now.nodes }
    {
        let marks = self.unmarked.as_slice();
        let terrain = PricedMap::new(self.map, self.bound, self.rates, self.modes);
        let ask = LegAsk {
            cut: marks,
            used: marks,
            start: from,
            target: to,
            turns: true,
        };
        let space = BikeSpace::new(rt.alloc(), terrain, &ask, None)?;
        self.settle(rt, &space, plan)
    }

    /// Searches between two nodes, and prints where they lie, the answer and how many labels it
    /// took.
    fn tell(
        &self,
        rt: &HostRuntime,
        from: u32,
        to: u32,
        plan: Plan,
        totals: &mut Totals,
    ) -> io::Result<()>
        requires from { from < length self.now.map.now.nodes }
        requires to { to < length self.now.map.now.nodes }
    {
        let ended = self.search(rt, from, to, plan)?;
        totals.add(&ended);
        let (start, end) = (self.map.node_spot(from), self.map.node_spot(to));
        print!(rt;
            "{},{} {},{} {} labels, ",
            start.lon(),
            start.lat(),
            end.lon(),
            end.lat(),
            ended.labels
        )?;
        tell_answer(rt, &ended)
    }

    /// Searches between as many pairs of drawn nodes as planned, and prints each and their totals.
    pub(crate) fn search_pairs(&self, rt: &HostRuntime, plan: Plan) -> io::Result<()> {
        let mut draws = Draws::new(13);
        let mut totals = Totals {
            searches: 0,
            found: 0,
            ranks: 0,
            labels: 0,
        };
        for _ in 0..plan.searches {
            if let Some(from) = draws.node(self.map, self.bound)
                && let Some(to) = draws.node(self.map, self.bound)
            {
                self.tell(rt, from, to, plan, &mut totals)?;
            }
        }
        println!(rt;
            "{} searches, {} found, ranks {}, {} labels",
            totals.searches, totals.found, totals.ranks, totals.labels
        )
    }
}

/// Prints what a search answered.
fn tell_answer(rt: &HostRuntime, ended: &Ended) -> io::Result<()> {
    match ended.last {
        Outcome::Found(_) => println!(rt; "Found {{ rank: {} }}", ended.rank),
        last => println!(rt; "{}", word_of(last)),
    }
}

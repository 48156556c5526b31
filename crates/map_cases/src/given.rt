//! The facts of links and the rates that cases give.

ghost use Rattle.std.specs.Prelude.{◌<◌, ◌^◌, length};
ghost use Rattle.cost_model.specs.Facts.{AreFacts};
ghost use Rattle.map_cases.specs.Given.{AreGiven};

use cost_model::{FactsOf, LinkFacts, Rates};
use fixed_num::Num;
use std::alloc::{AllocError, Global};

/// The most of a cost in millionths.
pub(crate) const MOST: i64 = 1_000_000_000_000_000;

/// The most that a link rises or falls in micrometres.
pub(crate) const MOST_RISE: i64 = 100_000_000_000;

/// The facts of links by number, which keep their bounds.
#[derive(Drop)]
pub(crate) struct Given {
    pub(crate) facts: Vec<LinkFacts>,
    ghost few: { length facts.items < 2 ^ 32 },
    ghost given: { AreGiven facts.items },
}

impl Given {
    /// No link has facts.
    pub(crate) fn new(alloc: Global) -> Given {
        Given {
            facts: Vec::new(alloc),
        }
    }

    /// The next link has these facts.
    pub(crate) fn push(&mut self, facts: LinkFacts) -> Result<(), AllocError>
        requires facts { AreFacts facts }
    {
        if self.facts.len() >= u32::MAX as usize {
            return Err(AllocError);
        }
        match self.facts.push(facts) {
            Ok(()) => Ok(()),
            Err(_) => Err(AllocError),
        }
    }
}

impl FactsOf for Given {
    ghost use Rattle.map_cases.specs.Given.{given_links};

    ghost links = { λ given. given_links given.facts.items };

    ghost sound = { λ given. given.given };

    fn count(&self) -> u32 {
        self.facts.len() as u32
    }

    fn facts(&self, link: u32) -> LinkFacts {
        self.facts[link as usize]
    }
}

/// The rates of the seven global values, in the order of `Rates::new`.
pub(crate) fn rates_of(values: &[i64; 7]) -> Option<Rates> {
    let globals = [
        Num::of(values[0])?,
        Num::of(values[1])?,
        Num::of(values[2])?,
        Num::of(values[3])?,
        Num::of(values[4])?,
        Num::of(values[5])?,
        Num::of(values[6])?,
    ];
    Rates::new(&globals).ok()
}

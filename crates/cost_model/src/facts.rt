//! What is known of a link before a walk takes it.

ghost use Rattle.std.specs.Prelude.{◌≡◌, ◌<◌};
ghost use Rattle.cost_model.specs.Facts.{AreLinks, Links};
ghost use Rattle.cost_model.specs.OpenLinks.{low_price_of};

use crate::least::low_price;
use geo_int::Arrow;

/// The facts of a link, by the tags of its way and of the node at its end.
#[derive(Clone, Copy)]
pub struct LinkFacts {
    pub arrow: Arrow,
    /// The end's height less the start's in micrometres.
    pub rise: i64,
    pub costfactor: i64,
    pub turncost: i64,
    pub initialcost: i64,
    /// What ways are told apart by; it may be negative.
    pub classifier: i64,
    /// The price of the node at the end.
    pub charge: i64,
    /// Whether the way grants access to its nodes.
    pub granted: bool,
    /// The factor for climbing; `costfactor` stands for 0.
    pub upfactor: i64,
    /// The factor for descending; `costfactor` stands for 0.
    pub downfactor: i64,
}

/// The facts of all links of a map, by number. No call takes memory.
pub trait FactsOf {
    /// How many links there are, and the facts of each by its number.
    ghost links: { Self → Links };

    /// How many links there are.
    fn count(&self) -> u32
        ensures value { result ≡ (links self.now).count };

    /// The facts of a link.
    fn facts(&self, link: u32) -> LinkFacts
        requires within { link < (links self.now).count }
        ensures value { result ≡ (links self.now).facts link };

    /// What it costs to enter a link at least whose segment wasn't used; `None` where its facts don't
    /// let a rider take it. What keeps these prices finds them without the facts.
    fn low_price(&self, link: u32) -> Option<u128>
        requires within { link < (links self.now).count }
        ensures value { result ≡ low_price_of ((links self.now).facts link) }
    {
        low_price(&self.facts(link))
    }

    /// The facts of every link keep the bounds.
    ghost sound: { (source : Self) → AreLinks (links source) };
}

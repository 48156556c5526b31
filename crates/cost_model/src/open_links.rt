//! Which links a rider may take.

ghost use Rattle.std.specs.Prelude.{◌≡◌, ◌<◌};
ghost use Rattle.cost_model.specs.OpenLinks.{Opens, is_cut, is_passable, open_by};

use crate::facts::{FactsOf, LinkFacts};

/// A costfactor from which a link is closed, 10000 in millionths.
const CLOSED_COSTFACTOR: i64 = 10_000_000_000;

/// A charge from which a link is closed, 1000000 in millionths.
const CLOSED_CHARGE: i64 = 1_000_000_000_000;

/// Which links of a map are open to a rider. The call takes no memory.
pub trait OpenLinks {
    /// How many links there are, and which of them are open.
    ghost opens: { Self → Opens };

    /// Whether a link is open.
    fn is_open(&self, link: u32) -> bool
        requires within { link < (opens self.now).count }
        ensures value { result ≡ (opens self.now).is_open link };
}

/// The links that their facts let a rider take and that aren't cut.
#[derive(Drop)]
pub struct Passages<'a, F> {
    /// The facts of all links.
    pub facts: &'a F,
    /// Whether each link is cut; a link beyond the list isn't.
    pub cut: &'a [bool],
}

impl<'a, F: FactsOf> OpenLinks for Passages<'a, F> {
    ghost opens = { λ p. record {
      count = (F.links p.facts.now).count;
      is_open = open_by (F.links p.facts.now).facts p.cut.now;
    } };

    fn is_open(&self, link: u32) -> bool {
        is_passable(&self.facts.facts(link)) && !is_cut(self.cut, link)
    }
}

/// Whether the facts of a link let a rider take it: its `costfactor` is below 10000, and the charge
/// at its end below 1000000.
#[tactic(auto, unfolding(crate::specs::OpenLinks::is_passable))]
pub fn is_passable(facts: &LinkFacts) -> bool
    ensures exact { result ≡ is_passable facts.now }
{
    facts.costfactor < CLOSED_COSTFACTOR && facts.charge < CLOSED_CHARGE
}

/// Whether a link is cut.
fn is_cut(cut: &[bool], link: u32) -> bool
    ensures exact { result ≡ is_cut cut.now link }
{
    match cut.get(link as usize) {
        Some(answer) => *answer,
        None => false,
    }
}

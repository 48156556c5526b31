//! What binding spends of a budget.

ghost use Rattle.std.specs.Prelude.{◌≡◌, ◌<◌, ◌≤◌, ◌-◌, suc};
ghost use Rattle.way_class.specs.Spending.{weight_of};

use lookup_table::Part;
use profile_code::Code;

/// What an evaluation counts besides its way or its node.
#[tactic(auto, unfolding(crate::specs::Spending::weight_of))]
pub(crate) fn weight_of(code: &Code) -> u32
    ensures exact { result ≡ weight_of code.now }
{
    let longer = code.length(Part::Way).max(code.length(Part::Node));
    (longer / 64).min(1_000_000) as u32 + 1
}

/// What is left of a budget behind one more way or node, of which some is left before: it counts 1,
/// and where its tag numbers were evaluated, so that there is a class more, the evaluation.
pub(crate) fn left_after(left: u32, weight: u32, before: usize, after: usize) -> u32
    ensures known { after ≡ before → result ≡ left - 1 }
    ensures evaluated { after ≡ suc before → result ≡ left - suc weight }
{
    if after == before {
        left.saturating_sub(1)
    } else {
        left.saturating_sub(1).saturating_sub(weight)
    }
}

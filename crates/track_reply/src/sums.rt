//! What lengths add up to.

ghost use Rattle.std.specs.Prelude.{◌≡◌, ◌<◌, ◌^◌};
ghost use Rattle.track_reply.specs.Showable.{AreRowsBelow};
ghost use Rattle.track_reply.specs.Sums.{total_length};

use crate::rows::row_at;
use cost_model::FactsOf;
use track_legs::Row;

/// The lengths of the links of all rows, in millimetres.
#[tactic(auto, unfolding(crate::specs::Sums::total_length))]
pub(crate) fn total_length<F: FactsOf>(facts: &F, rows: &[Row]) -> u128
    requires in_range { AreRowsBelow (F.links facts.now).count rows.now }
    ensures exact { result ≡ total_length (F.links facts.now).facts rows.now }
{
    let mut sum = 0;
    'rows: for place in 0..rows.len() {
        sum += length_of(facts, row_at(rows, place).link);
    }
    sum
}

/// The length of a link, in millimetres.
fn length_of<F: FactsOf>(facts: &F, link: u32) -> u128
    requires in_range { link < (F.links facts.now).count }
    ensures exact { result ≡ ((F.links facts.now).facts link).arrow.len }
    ensures below { result < 2 ^ 64 }
{
    let found = facts.facts(link);
    u128::from(found.arrow.len)
}

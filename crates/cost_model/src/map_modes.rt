//! How the buffers of two labels are compared on a map.

ghost use Rattle.std.specs.Prelude.{◌≡◌, ◌<◌, ◌&&◌, ℕ, Bool, IsTrue, int_le};
ghost use Rattle.cost_model.specs.Modes.{AllowsFacts, mode_by, modes_of};
ghost use Rattle.cost_model.specs.Parts.{is_same};

use crate::facts::FactsOf;
use elev_buffer::{Mode, Modes};

/// How the buffers of two labels are compared where all links have these facts. Each link is looked
/// at once, forbidden ones too.
pub fn modes<F: FactsOf>(facts: &F) -> Modes
    ensures exact { result ≡ modes_of (F.links facts.now) }
    ensures allows { (link : ℕ) → link < (F.links facts.now).count →
        AllowsFacts result ((F.links facts.now).facts link) }
{
    let mut found = Modes {
        down: Mode::Compensated,
        up: Mode::Compensated,
    };
    'links: for link in 0..facts.count() {
        let each = facts.facts(link);
        found = Modes {
            down: joined(found.down, each.downfactor, each.costfactor),
            up: joined(found.up, each.upfactor, each.costfactor),
        };
    }
    found
}

/// The mode by all links so far and one more, whose factor is this.
fn joined(mode: Mode, factor: i64, costfactor: i64) -> Mode
    ensures exact { (same above : Bool) → (IsTrue same → IsTrue above) → mode ≡ mode_by same above →
        result ≡ mode_by (same && is_same factor costfactor) (above && int_le costfactor factor) }
{
    if factor == costfactor {
        mode
    } else if factor < costfactor {
        Mode::Equal
    } else {
        match mode {
            Mode::Equal => Mode::Equal,
            _ => Mode::Ordered,
        }
    }
}

//! A row for each link of a track.

ghost use Rattle.std.specs.Prelude.{◌≡◌, ◌++◌, IfOk};
ghost use Rattle.track_legs.specs.Rows.{AreBelow, HasLinksBelow, rows_of, rows_of_walk};

use crate::costs::go_on;
use crate::track::Track;
use cost_model::{FactsOf, Parts, Rates};
use item_list::Items;
use std::alloc::{AllocError, Global};

/// A link of a track and the parts of what it costs there, in millionths: the distance once,
/// whatever the rank counts.
#[derive(Clone, Copy)]
pub struct Row {
    /// The link.
    pub link: u32,
    /// What it costs at its place in its leg.
    pub parts: Parts,
}

/// The rows of a track: one for each link of each leg, in their order.
pub fn rows<F: FactsOf>(
    alloc: Global,
    track: &Track,
    facts: &F,
    rates: &Rates,
) -> Result<Items<Row>, AllocError>
    requires in_range { HasLinksBelow (F.links facts.now).count track.now }
    ensures exact { IfOk result
        (λ rows. rows ≡ rows_of rates.now (F.links facts.now).facts track.now) }
{
    let mut rows = Items::new(alloc);
    let legs = track.legs.as_slice();
    'legs: for place in 0..legs.len() {
        add_rows(&mut rows, facts, rates, legs[place].links.as_slice())?;
    }
    Ok(rows)
}

/// Puts the rows of a walk at the end.
fn add_rows<F: FactsOf>(
    rows: &mut Items<Row>,
    facts: &F,
    rates: &Rates,
    walk: &[u32],
) -> Result<(), AllocError>
    requires in_range { AreBelow (F.links facts.now).count walk.now }
    ensures added { IfOk result (λ _. rows.new ≡
        rows.old ++ rows_of_walk rates.now (F.links facts.now).facts walk.now) }
{
    let mut carry = None;
    'links: for place in 0..walk.len() {
        let (next, parts) = go_on(facts, rates, carry, walk[place]);
        rows.push(Row {
            link: walk[place],
            parts,
        })?;
        carry = Some(next);
    }
    Ok(())
}

//! The turns that restrictions forbid, by node.

ghost use Rattle.std.specs.Prelude.{◌≡◌, ◌<◌, IfOk, map};
ghost use Rattle.overpass_graph.specs.Restrictions.{forbids_any, forbids_ways as forbids_ways_of, is_in};
ghost use Rattle.overpass_graph.specs.Turns.{TurnTable, AreViasBelow, vias_of};

use crate::groups::Groups;
use crate::link::Link;
use crate::restriction::{Restriction, RestrictionKind};
use std::alloc::{AllocError, Global};
use std::marker::Model;

/// Restrictions, and those at each node.
pub(crate) struct Turns {
    at: Groups,
    restrictions: Vec<Restriction>,
}

impl Drop for Turns {
    fn drop(self) {
        let Turns {
            at: _,
            restrictions: _,
        } = self;
    }
}

impl Model for Turns {
    ghost use Rattle.std.specs.Prelude.{◌≡◌};
    ghost use Rattle.overpass_graph.specs.Turns.{TurnTable, vias_of};

    ghost Value = { TurnTable };

    ghost view = { λ t. record { nodes = t.at.groups; restrictions = t.restrictions.items } };

    ghost invariant = { λ t. t.at.keys ≡ vias_of t.restrictions.items };
}

impl Turns {
    /// The turns of these restrictions at so many nodes.
    pub(crate) fn new(
        alloc: Global,
        nodes: u32,
        restrictions: Vec<Restriction>,
    ) -> Result<Turns, AllocError>
        requires below { AreViasBelow nodes restrictions.items }
        ensures value { IfOk result
            (λ turns. turns ≡ record { nodes = nodes; restrictions = restrictions.items }) }
    {
        if restrictions.len() > u32::MAX as usize {
            return Err(AllocError);
        }
        let vias = vias(alloc, restrictions.as_slice())?;
        let at = Groups::new(alloc, nodes, vias)?;
        Ok(Turns { at, restrictions })
    }

    /// Whether a restriction forbids the second link after the first, which join.
    pub(crate) fn forbids(&self, first: &Link, second: &Link) -> bool
        requires in_range { first.now.to < self.now.nodes }
        requires joins { second.now.from ≡ first.now.to }
        ensures value { result ≡ forbids_any self.now.restrictions first.now second.now }
    {
        'places: for place in self.at.group(first.to) {
            let restriction = &self.restrictions[*place as usize];
            if forbids_ways(restriction, first.way, second.way) {
                return true;
            }
        }
        false
    }
}

/// The nodes of restrictions.
fn vias(alloc: Global, restrictions: &[Restriction]) -> Result<Vec<u32>, AllocError>
    ensures exact { IfOk result (λ v. v.items ≡ vias_of restrictions.now) }
{
    restrictions
        .iter()
        .map(|restriction| restriction.via)
        .collect(alloc)
}

/// Whether a restriction forbids a way after a way.
fn forbids_ways(restriction: &Restriction, first: u32, second: u32) -> bool
    ensures value { result ≡ forbids_ways_of restriction.now first second }
{
    if !has(restriction.from.as_slice(), first) {
        return false;
    }
    let is_to = has(restriction.to.as_slice(), second);
    match restriction.kind {
        RestrictionKind::No => is_to && first != second,
        RestrictionKind::Only => !is_to,
    }
}

/// Whether a way is among these.
fn has(ways: &[u32], way: u32) -> bool
    ensures value { result ≡ is_in way ways.now }
{
    'ways: for other in ways {
        if *other == way {
            return true;
        }
    }
    false
}

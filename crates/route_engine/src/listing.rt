//! The nodes of which a search tells a cost, listed by ascending number in steps.

ghost use Rattle.std.specs.Prelude.{◌≡◌, ◌<◌, ◌≤◌, IfOk, OnOk, ℕ, suc, true, length, get_or};
ghost use Rattle.cost_table.specs.Reaches.{cost_in};
ghost use Rattle.route_engine.specs.Listings.{AreBelow, AreBlocks, AreMarked, IsListedBelow, IsListing, ListsOn, is_marked_at};

use cost_table::Reach;
use std::alloc::{AllocError, Global};

/// How many numbers of nodes a block has.
const BLOCK: u32 = 64;

/// How many nodes a step looks at.
pub(crate) const LOOKS: u32 = 512;

/// The nodes of which a search tells a cost, as they are listed by ascending number.
pub(crate) struct Listing {
    /// What tells the costs: a search at its end.
    pub(crate) reach: Reach,
    /// Of each block of numbers, whether a node of it has a cost.
    pub(crate) marks: Vec<bool>,
    /// The number that is looked at next.
    pub(crate) node: u32,
    /// The nodes before it that have a cost, by their numbers, each with its own.
    pub(crate) list: Vec<(u32, u128)>,
}

impl Drop for Listing {
    fn drop(self) {
        let Listing {
            reach: _,
            marks: _,
            node: _,
            list: _,
        } = self;
    }
}

/// What a step of a listing came to.
#[derive(Drop)]
pub(crate) struct Looked {
    /// How much it counted.
    pub(crate) spent: u32,
    pub(crate) listing: Listing,
}

impl Listing {
    /// Lists what a search tells of so many nodes; no number is looked at yet.
    pub(crate) fn new(alloc: Global, reach: Reach, nodes: u32) -> Result<Listing, AllocError>
        requires below { AreBelow (cost_in reach) nodes }
        ensures on { IfOk result (IsListing nodes) }
        ensures same { IfOk result (λ listing. listing.reach ≡ reach) }
        ensures begins { IfOk result (λ listing. listing.node ≡ 0) }
    {
        let marks = marks_of(alloc, &reach, nodes)?;
        let list = Vec::with_capacity(alloc, reach.nodes().len())?;
        Ok(Listing {
            reach,
            marks,
            node: 0,
            list,
        })
    }

    /// The nodes that are listed.
    pub(crate) fn into_list(self) -> Vec<(u32, u128)>
        ensures value { result ≡ self.list }
    {
        let Listing {
            reach: _,
            marks: _,
            node: _,
            list,
        } = self;
        list
    }

    /// Looks at nodes further on, and counts `room` at most. A node counts one, and so do those of a
    /// block in which none has a cost.
    pub(crate) fn looked(self, nodes: u32, room: u32) -> Result<Looked, AllocError>
        requires on { IsListing nodes self }
        requires left { self.node < nodes }
        requires some { 1 ≤ room }
        ensures lists { IfOk result (λ looked. ListsOn nodes looked.spent self looked.listing) }
        ensures counts { IfOk result (λ looked. 1 ≤ looked.spent) }
        ensures fits { IfOk result (λ looked. looked.spent ≤ room) }
    {
        let Listing {
            reach,
            marks,
            mut node,
            mut list,
        } = self;
        let mut spent = 0;
        'nodes: while spent < room && node < nodes {
            node = look(&reach, marks.as_slice(), node, nodes, &mut list)?;
            spent += 1;
        }
        Ok(Looked {
            spent,
            listing: Listing {
                reach,
                marks,
                node,
                list,
            },
        })
    }
}

/// Looks at a node, or passes over those of its block. Tells the next one.
fn look(
    reach: &Reach,
    marks: &[bool],
    node: u32,
    nodes: u32,
    list: &mut Vec<(u32, u128)>,
) -> Result<u32, AllocError>
    requires there { node < nodes }
    requires blocks { AreBlocks nodes marks.now }
    requires marked { AreMarked (cost_in reach.now) marks.now }
    requires listed { IsListedBelow (cost_in reach.now) node list.old.items }
    ensures further { IfOk result (λ next. node < next) }
    ensures fits { IfOk result (λ next. next ≤ nodes) }
    ensures listed { IfOk result (λ next. IsListedBelow (cost_in reach.now) next list.new.items) }
{
    if !marks[(node / BLOCK) as usize] {
        let left = BLOCK - node % BLOCK;
        return Ok(node + left.min(nodes - node));
    }
    list_node(reach, node, list)?;
    Ok(node + 1)
}

/// Puts a node behind a list, where it has a cost.
fn list_node(reach: &Reach, node: u32, list: &mut Vec<(u32, u128)>) -> Result<(), AllocError>
    requires listed { IsListedBelow (cost_in reach.now) node list.old.items }
    ensures listed { OnOk result (IsListedBelow (cost_in reach.now) (suc node) list.new.items) }
{
    match reach.cost_to(node) {
        Some(cost) => {
            list.push((node, cost))?;
            Ok(())
        }
        None => Ok(()),
    }
}

/// The marks of the blocks in which a search tells a cost of a node.
fn marks_of(alloc: Global, reach: &Reach, nodes: u32) -> Result<Vec<bool>, AllocError>
    requires below { AreBelow (cost_in reach.now) nodes }
    ensures blocks { IfOk result (λ marks. AreBlocks nodes marks.items) }
    ensures marked { IfOk result (λ marks. AreMarked (cost_in reach.now) marks.items) }
{
    let found = reach.nodes();
    let mut marks = vec![in alloc; false; (nodes / BLOCK) as usize + 1]?;
    mark_all(found, nodes, &mut marks);
    Ok(marks)
}

/// Marks the blocks of nodes.
fn mark_all(found: &[u32], _nodes: u32, marks: &mut Vec<bool>)
    requires below { (place : ℕ) → place < length found.now → get_or found.now place 0 < _nodes }
    requires blocks { AreBlocks _nodes marks.old.items }
    ensures long { length marks.new.items ≡ length marks.old.items }
    ensures marked { (place : ℕ) → place < length found.now →
        is_marked_at marks.new.items (get_or found.now place 0) ≡ true }
{
    'found: for place in 0..found.len() {
        marks[(found[place] / BLOCK) as usize] = true;
    }
}

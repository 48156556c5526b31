//! Links in pairs: forward and backward along each segment.

ghost use Rattle.std.specs.Prelude.{◌≡◌, ℕ, ◌<◌, ◌^◌, [], IfOk, OnOk, length};
ghost use Rattle.overpass_graph.specs.Links.{both_ways};
ghost use Rattle.overpass_graph.specs.Pairs.{Net, IsSoundLaid, Lays, links_now};
ghost use Rattle.overpass_graph.specs.Nets.{net_link, links_leaving};

use crate::groups::Groups;
use crate::link::Link;
use crate::twins::twin;
use std::alloc::{AllocError, Global};
use std::marker::Model;

/// The way of a segment, and its place on it.
#[derive(Clone, Copy, Drop)]
pub(crate) struct Piece {
    pub(crate) way: u32,
    pub(crate) segment: u32,
}

/// Links as they are laid, segment by segment.
#[derive(Drop)]
pub(crate) struct Laid {
    /// The node that each link leaves.
    pub(crate) ends: Vec<u32>,
    /// The segment of each pair of links.
    pub(crate) pieces: Vec<Piece>,
}

impl Laid {
    /// No links.
    pub(crate) fn new(alloc: Global) -> Laid
        ensures sound { (nodes : ℕ) → IsSoundLaid nodes result }
        ensures value { links_now result ≡ [] }
    {
        Laid {
            ends: Vec::new(alloc),
            pieces: Vec::new(alloc),
        }
    }

    /// The two links of one more segment.
    pub(crate) fn push(&mut self, way: u32, segment: u32, a: u32, b: u32) -> Result<(), AllocError>
        ensures value { OnOk result ((nodes : ℕ) → IsSoundLaid nodes self.old → a < nodes →
            b < nodes
            → Lays nodes self.old self.new (both_ways way segment a b)) }
    {
        self.ends.push(a)?;
        self.ends.push(b)?;
        self.pieces.push(Piece { way, segment })?;
        Ok(())
    }
}

/// The links of a map, and those that leave each node.
pub(crate) struct Links {
    ends: Groups,
    pieces: Vec<Piece>,
}

impl Drop for Links {
    fn drop(self) {
        let Links { ends: _, pieces: _ } = self;
    }
}

impl Model for Links {
    ghost use Rattle.std.specs.Prelude.{◌≡◌, ◌*◌, length};
    ghost use Rattle.overpass_graph.specs.Pairs.{Net, paired};

    ghost Value = { Net };

    ghost view = { λ l.
        record { nodes = l.ends.groups; links = paired l.ends.keys l.pieces.items } };

    ghost invariant = { λ l. length l.ends.keys ≡ 2 * length l.pieces.items };
}

impl Links {
    /// The links that were laid between so many nodes.
    pub(crate) fn new(alloc: Global, nodes: u32, laid: Laid) -> Result<Links, AllocError>
        requires sound { IsSoundLaid nodes laid }
        ensures value { IfOk result
            (λ net. net ≡ record { nodes = nodes; links = links_now laid }) }
    {
        if laid.ends.len() > u32::MAX as usize {
            return Err(AllocError);
        }
        let Laid { ends, pieces } = laid;
        let ends = Groups::new(alloc, nodes, ends)?;
        Ok(Links { ends, pieces })
    }

    /// How many links there are.
    pub(crate) fn len(&self) -> u32
        ensures value { result ≡ length self.now.links }
        ensures few { length self.now.links < 2 ^ 32 }
    {
        self.ends.len()
    }

    /// The link of a number.
    pub(crate) fn link(&self, link: u32) -> Link
        requires in_range { link < length self.now.links }
        ensures value { result ≡ net_link self.now link }
    {
        let piece = self.pieces[link as usize / 2];
        Link {
            from: self.ends.key(link),
            to: self.ends.key(twin(link)),
            way: piece.way,
            segment: piece.segment,
            back: link % 2 == 1,
        }
    }

    /// The links that leave a node, ascending.
    pub(crate) fn leaving(&self, node: u32) -> &[u32]
        requires in_range { node < self.now.nodes }
        ensures value { result.now ≡ links_leaving self.now node }
    {
        self.ends.group(node)
    }
}

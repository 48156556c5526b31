//! The tails above a node come to lead to the heads above it.

ghost use Rattle.std.specs.Prelude.{◌≡◌, ◌+◌, ◌<◌, ◌≤◌, ℕ};
ghost use Rattle.link_hierarchy.specs.Customizing.{AreCustomized, IsAhead};
ghost use Rattle.link_hierarchy.specs.Topologies.{AreJoined, IsPair, IsPlace, head_of, into_of, start_of, up_of};

use crate::arcs::Arc;
use crate::limits::plus;
use crate::topology::Topology;
use crate::weights::Weights;

/// A tail above a node comes to lead to the heads above that are above the tail.
pub(crate) fn join_tail(
    topology: &Topology,
    weights: &mut Weights,
    node: u32,
    first: usize,
    _arcs: &[Arc],
    _head: usize,
)
    requires in_range { IsPlace (into_of topology.now) node first }
    requires customized { AreCustomized topology.now weights.old _arcs.now node first 0 _head 0 }
    ensures customized { AreCustomized topology.now weights.new _arcs.now node (first + 1) 0
        _head 0 }
{
    let _nodes = topology.nodes();
    let mut place = topology.out_start(topology.tail(first));
    'places: for second in topology.out_start(node)..topology.out_end(node) {
        place = join_up(topology, weights, node, first, second, place, _arcs, _head);
    }
}

/// A tail above a node comes to lead to a head above, where that is above the tail, and tells from
/// where on the next head stands among those of the tail.
#[inline(always)]
fn join_up(
    topology: &Topology,
    weights: &mut Weights,
    _node: u32,
    first: usize,
    second: usize,
    from: usize,
    _arcs: &[Arc],
    _head: usize,
) -> usize
    requires first { IsPlace (into_of topology.now) _node first }
    requires second { IsPlace (up_of topology.now) _node second }
    requires ahead { IsAhead (up_of topology.now) _node (head_of (into_of topology.now) first) second
        from }
    requires customized { AreCustomized topology.now weights.old _arcs.now _node first second
        _head 0 }
    ensures customized { AreCustomized topology.now weights.new _arcs.now _node first (second + 1)
        _head 0 }
    ensures ahead { IsAhead (up_of topology.now) _node (head_of (into_of topology.now) first)
        (second + 1) result }
{
    let _nodes = topology.nodes();
    let tail = topology.tail(first);
    let head = topology.head(second);
    if head <= tail {
        return from;
    }
    let place = place_of_head(topology, tail, head, from);
    weights.lower_out(place, plus(weights.back(first), weights.out(second)));
    place
}

/// The tails above a node that are above a head come to lead to that head.
pub(crate) fn join_head(
    topology: &Topology,
    weights: &mut Weights,
    node: u32,
    second: usize,
    _arcs: &[Arc],
    _tail: usize,
)
    requires in_range { IsPlace (up_of topology.now) node second }
    requires customized { AreCustomized topology.now weights.old _arcs.now node _tail 0 second 0 }
    ensures customized { AreCustomized topology.now weights.new _arcs.now node _tail 0 (second + 1)
        0 }
{
    let _nodes = topology.nodes();
    let mut place = topology.in_start(topology.head(second));
    'places: for first in topology.in_start(node)..topology.in_end(node) {
        place = join_down(topology, weights, node, first, second, place, _arcs, _tail);
    }
}

/// A head above a node comes to be led to by a tail above, where that is above the head, and tells
/// from where on the next tail stands among those of the head.
#[inline(always)]
fn join_down(
    topology: &Topology,
    weights: &mut Weights,
    _node: u32,
    first: usize,
    second: usize,
    from: usize,
    _arcs: &[Arc],
    _tail: usize,
) -> usize
    requires first { IsPlace (into_of topology.now) _node first }
    requires second { IsPlace (up_of topology.now) _node second }
    requires ahead { IsAhead (into_of topology.now) _node (head_of (up_of topology.now) second) first
        from }
    requires customized { AreCustomized topology.now weights.old _arcs.now _node _tail 0 second
        first }
    ensures customized { AreCustomized topology.now weights.new _arcs.now _node _tail 0 second
        (first + 1) }
    ensures ahead { IsAhead (into_of topology.now) _node (head_of (up_of topology.now) second)
        (first + 1) result }
{
    let _nodes = topology.nodes();
    let tail = topology.tail(first);
    let head = topology.head(second);
    if tail <= head {
        return from;
    }
    let place = place_of_tail(topology, head, tail, from);
    weights.lower_back(place, plus(weights.back(first), weights.out(second)));
    place
}

/// The place of a head above a node, from a place on.
fn place_of_head(topology: &Topology, low: u32, high: u32, from: usize) -> usize
    requires in_range { low < topology.now.nodes }
    requires from_start { start_of (up_of topology.now) low ≤ from }
    requires joined { AreJoined (up_of topology.now) low high }
    requires ahead { (k : ℕ) → IsPair (up_of topology.now) low high k → from ≤ k }
    ensures is { IsPair (up_of topology.now) low high result }
{
    let _nodes = topology.nodes();
    let mut place = from;
    'places: while topology.head(place) != high {
        place += 1;
    }
    place
}

/// The place of a tail above a node, from a place on.
fn place_of_tail(topology: &Topology, low: u32, high: u32, from: usize) -> usize
    requires in_range { low < topology.now.nodes }
    requires from_start { start_of (into_of topology.now) low ≤ from }
    requires joined { AreJoined (into_of topology.now) low high }
    requires ahead { (k : ℕ) → IsPair (into_of topology.now) low high k → from ≤ k }
    ensures is { IsPair (into_of topology.now) low high result }
{
    let _nodes = topology.nodes();
    let mut place = from;
    'places: while topology.tail(place) != high {
        place += 1;
    }
    place
}

//! The least cut of a cell between its sources and its sinks, by a flow of whole units.

use crate::cells::Cells;
use crate::junctions::Junctions;
use crate::lists::{NONE, at, filled, put};
use crate::samples::limits;
use std::alloc::{AllocError, Global};

/// A flow over the arcs of a cell. In each round a search from the sources reaches what it can over
/// arcs that have room; each tree of it that reaches a sink sends a unit there. Once no tree does, the
/// junctions that are reached are the sources' side of a least cut.
pub(crate) struct Flow {
    /// The round in which a junction was reached last; of a source none, which is above each round.
    seen: Vec<u32>,
    /// The arc by which a junction was reached.
    parents: Vec<u32>,
    /// The first arc of the way on which it was reached.
    roots: Vec<u32>,
    /// How many units more an arc takes: one at first.
    rooms: Vec<u8>,
    /// The junctions that were reached in this round, the sources first.
    queue: Vec<u32>,
    /// The place of the queue that is looked at now.
    next: usize,
    /// How many sources there are.
    sources: usize,
    round: u32,
    /// How many units the flow has, and how many of this round.
    units: u32,
    found: u32,
    /// The least cut of the cell so far.
    best: u32,
    /// Whether the cell is cut along the other direction.
    north: bool,
    /// Where the last source lies, and the first sink.
    low: u64,
    high: u64,
    sample: Vec<u64>,
}

impl Drop for Flow {
    fn drop(self) {
        let Flow {
            seen: _,
            parents: _,
            roots: _,
            rooms: _,
            queue: _,
            next: _,
            sources: _,
            round: _,
            units: _,
            found: _,
            best: _,
            north: _,
            low: _,
            high: _,
            sample: _,
        } = self;
    }
}

/// What a round came to.
pub(crate) enum Round {
    /// Units were sent, so another round may send more.
    More,
    /// The cut is as great as one that was found before.
    Worse,
    /// The flow is greatest, and the cut the least so far.
    Better,
}

impl Flow {
    /// Room for so many junctions and arcs.
    pub(crate) fn new(alloc: Global, count: u32, arcs: u32) -> Result<Flow, AllocError> {
        Ok(Flow {
            seen: filled(alloc, 0, count)?,
            parents: filled(alloc, NONE, count)?,
            roots: filled(alloc, NONE, count)?,
            rooms: filled(alloc, 1, arcs)?,
            queue: Vec::new(alloc),
            next: 0,
            sources: 0,
            round: 0,
            units: 0,
            found: 0,
            best: NONE,
            north: false,
            low: 0,
            high: 0,
            sample: Vec::new(alloc),
        })
    }

    /// No cut is found of a cell that is new.
    pub(crate) fn forget(&mut self) {
        self.best = NONE;
    }

    /// Whether the other direction was the last one.
    pub(crate) fn is_north(&self) -> bool {
        self.north
    }

    /// Begins along a direction.
    pub(crate) fn begin(
        &mut self,
        junctions: &Junctions,
        cells: &Cells,
        north: bool,
    ) -> Result<(), AllocError> {
        let (low, high) = limits(junctions, cells, north, &mut self.sample)?;
        self.north = north;
        self.low = low;
        self.high = high;
        self.units = 0;
        self.queue.clear();
        Ok(())
    }

    /// Takes a junction of the cell, which may be a source; its arcs have room again. How many.
    pub(crate) fn set(&mut self, junctions: &Junctions, member: u32) -> Result<u32, AllocError> {
        if junctions.lies(member, self.north) <= self.low {
            put(&mut self.seen, member, NONE);
            self.queue.push(member)?;
        } else {
            put(&mut self.seen, member, 0);
        }
        self.sources = self.queue.len();
        let (first, end) = junctions.leaving(member);
        'arcs: for arc in first..end {
            put(&mut self.rooms, arc, 1);
        }
        Ok(end.saturating_sub(first).saturating_add(1))
    }

    /// Begins a round.
    pub(crate) fn start(&mut self) {
        self.round = self.round.saturating_add(1);
        self.found = 0;
        self.next = 0;
        self.queue.truncate(self.sources);
    }

    /// Whether a junction was reached.
    pub(crate) fn reached(&self, member: u32) -> bool {
        at(&self.seen, member, 0) >= self.round
    }

    /// Looks at the arcs of the next junction that was reached. How many, or none where the round is over.
    pub(crate) fn search(
        &mut self,
        junctions: &Junctions,
        cells: &Cells,
    ) -> Result<Option<u32>, AllocError> {
        let member = match self.queue.get(self.next) {
            None => return Ok(None),
            Some(member) => *member,
        };
        self.next += 1;
        let root = self.root(member);
        let (first, end) = junctions.leaving(member);
        'arcs: for arc in first..end {
            self.look(junctions, cells, arc, root)?;
        }
        Ok(Some(end.saturating_sub(first).saturating_add(1)))
    }

    /// The first arc of the way on which a junction was reached; none of a source.
    #[inline(always)]
    fn root(&self, member: u32) -> u32 {
        if at(&self.seen, member, 0) == NONE {
            NONE
        } else {
            at(&self.roots, member, NONE)
        }
    }

    /// Looks at an arc: it reaches another junction of the cell, or a sink, to which a unit is sent.
    #[inline(always)]
    fn look(
        &mut self,
        junctions: &Junctions,
        cells: &Cells,
        arc: u32,
        root: u32,
    ) -> Result<(), AllocError> {
        let head = at(&junctions.heads, arc, NONE);
        if at(&cells.labels, head, NONE) != cells.start
            || self.reached(head)
            || at(&self.rooms, arc, 0) == 0
        {
            return Ok(());
        }
        let root = if root == NONE { arc } else { root };
        if junctions.lies(head, self.north) < self.high {
            put(&mut self.seen, head, self.round);
            put(&mut self.parents, head, arc);
            put(&mut self.roots, head, root);
            self.queue.push(head)?;
            return Ok(());
        }
        if at(&self.rooms, root, 0) > 0 {
            put(&mut self.parents, head, arc);
            self.send(junctions, head);
        }
        Ok(())
    }

    /// Sends a unit to a sink, on the way on which it was reached.
    fn send(&mut self, junctions: &Junctions, sink: u32) {
        self.units = self.units.saturating_add(1);
        self.found = self.found.saturating_add(1);
        let mut member = sink;
        'way: for junction in 0..self.seen.len() {
            let _ = junction;
            let arc = at(&self.parents, member, NONE);
            let back = at(&junctions.backs, arc, NONE);
            let room = at(&self.rooms, arc, 0).saturating_sub(1);
            put(&mut self.rooms, arc, room);
            let room = at(&self.rooms, back, 0).saturating_add(1);
            put(&mut self.rooms, back, room);
            member = at(&junctions.tails, arc, NONE);
            if at(&self.seen, member, NONE) == NONE {
                return;
            }
        }
    }

    /// What the round came to.
    pub(crate) fn end(&mut self) -> Round {
        if self.units >= self.best {
            return Round::Worse;
        }
        if self.found > 0 {
            return Round::More;
        }
        self.best = self.units;
        Round::Better
    }
}

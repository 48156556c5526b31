//! Cells: junctions that belong together, and are to be parted.

ghost use Rattle.std.specs.Prelude.{◌≡◌, length};

use crate::junctions::Junctions;
use crate::lists::{NONE, ascending, at, filled, put};
use crate::placing::Placing;
use std::alloc::{AllocError, Global};

/// All junctions, cell by cell. The cell that is parted now is a range of them.
pub(crate) struct Cells {
    /// The junctions of each cell stand side by side.
    pub(crate) members: Vec<u32>,
    /// The cell of each junction, named by the place where it starts.
    pub(crate) labels: Vec<u32>,
    /// The cells that are still to be parted.
    waiting: Vec<(u32, u32)>,
    /// Where this cell starts.
    pub(crate) start: u32,
    /// Where its second part starts.
    mid: u32,
    /// Where it ends.
    end: u32,
    /// The place that is looked at now.
    place: u32,
}

impl Drop for Cells {
    fn drop(self) {
        let Cells {
            members: _,
            labels: _,
            waiting: _,
            start: _,
            mid: _,
            end: _,
            place: _,
        } = self;
    }
}

impl Cells {
    /// So many junctions in one cell.
    pub(crate) fn new(alloc: Global, count: u32) -> Result<Cells, AllocError> {
        let mut waiting: Vec<(u32, u32)> = Vec::new(alloc);
        waiting.push((0, count))?;
        Ok(Cells {
            members: ascending(alloc, count)?,
            labels: filled(alloc, 0, count)?,
            waiting,
            start: 0,
            mid: 0,
            end: 0,
            place: 0,
        })
    }

    /// Takes the next cell; or tells that there is none.
    pub(crate) fn take(&mut self) -> bool {
        match self.waiting.pop() {
            None => false,
            Some(cell) => {
                let (start, end) = cell;
                self.start = start;
                self.mid = start;
                self.end = end;
                self.place = start;
                true
            }
        }
    }

    /// All places of the cell are looked at anew.
    pub(crate) fn restart(&mut self) {
        self.place = self.start;
    }

    /// No junction is in the first part, and all are looked at.
    pub(crate) fn unite(&mut self) {
        self.mid = self.start;
        self.place = self.start;
    }

    /// The second part is looked at.
    pub(crate) fn second(&mut self) {
        self.place = self.mid;
    }

    /// How many junctions the cell has.
    pub(crate) fn size(&self) -> u32 {
        self.end.saturating_sub(self.start)
    }

    /// The junction at the place that is looked at now, from which it goes on; none at the end of the cell.
    #[inline(always)]
    pub(crate) fn next(&mut self) -> Option<u32> {
        if self.place >= self.end {
            return None;
        }
        let member = at(&self.members, self.place, NONE);
        self.place += 1;
        Some(member)
    }

    /// The junction that was looked at last joins the first part.
    pub(crate) fn join_first(&mut self, member: u32) {
        let place = self.place.saturating_sub(1);
        let other = at(&self.members, self.mid, NONE);
        put(&mut self.members, place, other);
        put(&mut self.members, self.mid, member);
        self.mid = self.mid.saturating_add(1);
    }

    /// The second part is a cell of its own.
    pub(crate) fn name(&mut self, member: u32) {
        put(&mut self.labels, member, self.mid);
    }

    /// The junction before the place that is looked at, from the end of the cell downward: its arcs
    /// that cross into the other part get the last places. How many were looked at; none at the start.
    pub(crate) fn cross(&mut self, junctions: &Junctions, placing: &mut Placing) -> Option<u32>
        ensures counted { length placing.new.order.links ≡ length placing.old.order.links }
    {
        if self.place <= self.start {
            return None;
        }
        self.place -= 1;
        let member = at(&self.members, self.place, NONE);
        let other = if self.place < self.mid {
            self.mid
        } else {
            self.start
        };
        let (first, end) = junctions.leaving(member);
        'arcs: for arc in first..end {
            let head = at(&junctions.heads, arc, NONE);
            if at(&self.labels, head, NONE) == other {
                placing.put_high(at(&junctions.links, arc, NONE));
            }
        }
        Some(end.saturating_sub(first).saturating_add(1))
    }

    /// Both parts wait to be parted in turn.
    pub(crate) fn part(&mut self) -> Result<(), AllocError> {
        self.waiting.push((self.start, self.mid))?;
        self.waiting.push((self.mid, self.end))?;
        Ok(())
    }
}

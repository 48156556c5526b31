//! A map is taken apart: chains first, then its junctions, cell after cell.

ghost use Rattle.std.specs.Prelude.{◌≡◌, length};

use crate::cells::Cells;
use crate::chains::Chains;
use crate::flow::{Flow, Round};
use crate::junctions::Junctions;
use crate::placing::Placing;
use overpass_graph::Map;
use std::alloc::{AllocError, Global};

/// What is done now.
#[derive(Clone, Copy, Drop)]
enum Stage {
    /// Trees and chains leave the map.
    Chains,
    /// The nodes that are left get numbers as junctions.
    Junctions,
    /// Arcs find their heads.
    Arcs,
    /// The next cell is taken.
    Next,
    /// Its sources are found.
    Sources,
    /// A flow is looked for.
    Search,
    /// The cell is parted by the least cut so far.
    Part,
    /// The second part gets its name.
    Name,
    /// Links that cross the cut get their places.
    Cross,
    /// All is done.
    Over,
}

/// How far a map is taken apart.
pub(crate) struct Dissection {
    chains: Chains,
    junctions: Junctions,
    cells: Cells,
    flow: Flow,
    stage: Stage,
}

impl Drop for Dissection {
    fn drop(self) {
        let Dissection {
            chains: _,
            junctions: _,
            cells: _,
            flow: _,
            stage: _,
        } = self;
    }
}

impl Dissection {
    /// Nothing is done yet.
    pub(crate) fn new(alloc: Global, map: &Map) -> Result<Dissection, AllocError> {
        Ok(Dissection {
            chains: Chains::new(alloc, map)?,
            junctions: Junctions::new(alloc, 0)?,
            cells: Cells::new(alloc, 0)?,
            flow: Flow::new(alloc, 0, 0)?,
            stage: Stage::Chains,
        })
    }

    /// Whether all is done.
    pub(crate) fn is_over(&self) -> bool {
        match self.stage {
            Stage::Over => true,
            _ => false,
        }
    }

    /// One piece of work: a node, a junction, or what leaves it. How much was looked at.
    pub(crate) fn piece(
        &mut self,
        alloc: Global,
        map: &Map,
        placing: &mut Placing,
    ) -> Result<u32, AllocError>
        ensures counted { length placing.new.order.links ≡ length placing.old.order.links }
    {
        match self.stage {
            Stage::Chains => self.leave_out(alloc, map, placing),
            Stage::Junctions => self.lay(map, placing),
            Stage::Arcs => self.join(alloc),
            Stage::Next => self.take(),
            Stage::Sources => self.set(),
            Stage::Search => self.search(),
            Stage::Part => self.part(),
            Stage::Name => Ok(self.name()),
            Stage::Cross => self.cross(placing),
            Stage::Over => Ok(1),
        }
    }

    /// The next node is left out where it ends no more than two chains.
    fn leave_out(
        &mut self,
        alloc: Global,
        map: &Map,
        placing: &mut Placing,
    ) -> Result<u32, AllocError>
        ensures counted { length placing.new.order.links ≡ length placing.old.order.links }
    {
        if let Some(node) = self.chains.take(map) {
            return self.chains.leave_out(map, placing, node);
        }
        self.junctions = Junctions::new(alloc, map.links())?;
        self.stage = Stage::Junctions;
        Ok(1)
    }

    /// The next node is a junction where it is left.
    fn lay(&mut self, map: &Map, placing: &Placing) -> Result<u32, AllocError> {
        if let Some(looked) = self.junctions.lay(map, placing, &self.chains)? {
            return Ok(looked);
        }
        self.stage = Stage::Arcs;
        Ok(1)
    }

    /// The next arc finds its head. After the last one all junctions are one cell.
    fn join(&mut self, alloc: Global) -> Result<u32, AllocError> {
        if self.junctions.join(&self.chains)? {
            let count = self.junctions.count()?;
            self.cells = Cells::new(alloc, count)?;
            self.flow = Flow::new(alloc, count, self.junctions.arc_count()?)?;
            self.stage = Stage::Next;
        }
        Ok(1)
    }

    /// The next cell is taken. One of a single junction is done.
    fn take(&mut self) -> Result<u32, AllocError> {
        if !self.cells.take() {
            self.stage = Stage::Over;
            return Ok(1);
        }
        if self.cells.size() < 2 {
            return Ok(1);
        }
        self.flow.forget();
        self.begin(false)
    }

    /// A cut of the cell is looked for in a direction.
    fn begin(&mut self, north: bool) -> Result<u32, AllocError> {
        self.flow.begin(&self.junctions, &self.cells, north)?;
        self.cells.restart();
        self.stage = Stage::Sources;
        Ok(1)
    }

    /// The other direction comes, or both parts are made.
    fn turn(&mut self) -> Result<u32, AllocError> {
        if !self.flow.is_north() {
            return self.begin(true);
        }
        self.cells.second();
        self.stage = Stage::Name;
        Ok(1)
    }

    /// The next junction of the cell may be a source. After the last one the first round begins.
    fn set(&mut self) -> Result<u32, AllocError> {
        if let Some(member) = self.cells.next() {
            return self.flow.set(&self.junctions, member);
        }
        self.flow.start();
        self.stage = Stage::Search;
        Ok(1)
    }

    /// The search of a round goes on, or the round is over.
    fn search(&mut self) -> Result<u32, AllocError> {
        if let Some(looked) = self.flow.search(&self.junctions, &self.cells)? {
            return Ok(looked);
        }
        match self.flow.end() {
            Round::More => {
                self.flow.start();
                Ok(1)
            }
            Round::Worse => self.turn(),
            Round::Better => {
                self.cells.unite();
                self.stage = Stage::Part;
                Ok(1)
            }
        }
    }

    /// The next junction of the cell joins the first part where it was reached.
    fn part(&mut self) -> Result<u32, AllocError> {
        match self.cells.next() {
            None => self.turn(),
            Some(member) => {
                if self.flow.reached(member) {
                    self.cells.join_first(member);
                }
                Ok(1)
            }
        }
    }

    /// The next junction of the second part gets the part's name.
    fn name(&mut self) -> u32 {
        match self.cells.next() {
            None => self.stage = Stage::Cross,
            Some(member) => self.cells.name(member),
        }
        1
    }

    /// The links that cross the cut from one more junction get their places. After the last one both parts wait.
    fn cross(&mut self, placing: &mut Placing) -> Result<u32, AllocError>
        ensures counted { length placing.new.order.links ≡ length placing.old.order.links }
    {
        if let Some(looked) = self.cells.cross(&self.junctions, placing) {
            return Ok(looked);
        }
        self.cells.part()?;
        self.stage = Stage::Next;
        Ok(1)
    }
}

//! What the runs of one code work in.
ghost use Rattle.std.specs.Prelude.{IfOk};

use crate::code::Code;
use crate::global_effects::GlobalPlaces;
use crate::stack::Stack;
use crate::values::Values;
use crate::way_effects::WayPlaces;
use lookup_table::Part;
use profile_text::Section;
use std::alloc::{AllocError, Global};

/// The stack and the values of the runs of one code, with where the names with an effect are
/// assigned last: so a run takes no memory and looks for no name.
pub struct Scratch {
    pub(crate) stack: Stack,
    pub(crate) global: Values,
    pub(crate) way: Values,
    pub(crate) node: Values,
    pub(crate) global_places: GlobalPlaces,
    pub(crate) way_places: WayPlaces,
    pub(crate) node_place: Option<u32>,
}

impl Drop for Scratch {
    fn drop(self) {
        let Scratch {
            stack: _,
            global: _,
            way: _,
            node: _,
            global_places: _,
            way_places: _,
            node_place: _,
        } = self;
    }
}

impl Scratch {
    ghost use Rattle.profile_code.specs.Scratch.{IsScratchOf};

    /// What the runs of this code need.
    pub fn new(alloc: Global, code: &Code) -> Result<Scratch, AllocError>
        ensures value { IfOk result (λ scratch. IsScratchOf code.now scratch) }
    {
        let global = code.section(Section::Global).names();
        let way = code.own(Part::Way).names();
        let node = code.own(Part::Node).names();
        Ok(Scratch {
            stack: Stack::with_room(alloc, code.room())?,
            global: Values::with_room(alloc, global.len() as usize)?,
            way: Values::with_room(alloc, way.len() as usize)?,
            node: Values::with_room(alloc, node.len() as usize)?,
            global_places: GlobalPlaces::of(global),
            way_places: WayPlaces::of(way),
            node_place: node.last(b"initialcost"),
        })
    }
}

//! The flat code of a profile.
ghost use Rattle.std.specs.Prelude.{◌≡◌, length};
ghost use Rattle.profile_code.specs.Flat.{FlatSection, IsSafe, own_section, section_of};

use crate::instr::Instr;
use item_list::Items;
use lookup_table::Part;
use profile_text::{Names, Section};
use std::marker::Model;

/// The code of a section, with the names that its assignments set, in order.
///
/// Contracts see it as the list of operations and the list of names.
pub(crate) struct SectionCode {
    pub(crate) instrs: Items<Instr>,
    pub(crate) names: Names,
}

impl Drop for SectionCode {
    fn drop(self) {
        let SectionCode {
            instrs: _,
            names: _,
        } = self;
    }
}

impl Model for SectionCode {
    ghost use Rattle.profile_code.specs.Flat.{FlatSection};

    ghost Value = { FlatSection };

    ghost view = { λ s. record { instrs = s.instrs; names = s.names } };
}

impl SectionCode {
    /// The operations in order.
    pub(crate) fn instrs(&self) -> &[Instr]
        ensures value { result.now ≡ self.now.instrs }
    {
        self.instrs.as_slice()
    }

    /// The names of the assignments in order.
    pub(crate) fn names(&self) -> &Names
        ensures value { result.now ≡ self.now.names }
    {
        &self.names
    }
}

/// The code of the three sections, how many numbers a run has on the stack at most, and how many
/// tags the parts have.
pub(crate) struct Parts {
    pub(crate) global: SectionCode,
    pub(crate) way: SectionCode,
    pub(crate) node: SectionCode,
    pub(crate) room: usize,
    pub(crate) way_tags: u32,
    pub(crate) node_tags: u32,
}

impl Drop for Parts {
    fn drop(self) {
        let Parts {
            global: _,
            way: _,
            node: _,
            room: _,
            way_tags: _,
            node_tags: _,
        } = self;
    }
}

impl Model for Parts {
    ghost use Rattle.profile_code.specs.Flat.{Flat};

    ghost Value = { Flat };

    ghost view = { λ p. record {
      global = p.global;
      way = p.way;
      node = p.node;
      way_tags = p.way_tags;
      node_tags = p.node_tags;
      room = p.room;
    } };
}

impl Parts {
    /// The code of a section.
    fn section(&self, section: Section) -> &SectionCode
        ensures value { result.now ≡ section_of self.now section }
    {
        match section {
            Section::Global => &self.global,
            Section::Way => &self.way,
            Section::Node => &self.node,
        }
    }

    /// The code of a part's section.
    fn own(&self, part: Part) -> &SectionCode
        ensures value { result.now ≡ own_section self.now part }
    {
        match part {
            Part::Way => &self.way,
            Part::Node => &self.node,
        }
    }

    /// How many numbers a run has on the stack at most.
    fn room(&self) -> usize
        ensures value { result ≡ self.now.room }
    {
        self.room
    }
}

/// The flat code of a profile.
///
/// Contracts see it as the code of its three sections, with what a run needs to know before it
/// starts. No run of it is ever stuck.
pub struct Code {
    pub(crate) parts: Parts,
}

impl Drop for Code {
    fn drop(self) {
        let Code { parts: _ } = self;
    }
}

impl Model for Code {
    ghost use Rattle.profile_code.specs.Flat.{Flat, IsSafe};

    ghost Value = { Flat };

    ghost view = { λ c. c.parts };

    ghost invariant = { λ c. IsSafe c.parts };
}

impl Code {
    /// The code of a section.
    pub(crate) fn section(&self, section: Section) -> &SectionCode
        ensures value { result.now ≡ section_of self.now section }
        ensures sound { IsSafe self.now }
    {
        self.parts.section(section)
    }

    /// The operations of the global section, in order.
    pub(crate) fn global_instrs(&self) -> &[Instr]
        ensures value { result.now ≡ self.now.global.instrs }
        ensures sound { IsSafe self.now }
    {
        self.section(Section::Global).instrs()
    }

    /// The operations of a part's section, in order.
    pub(crate) fn own_instrs(&self, part: Part) -> &[Instr]
        ensures value { result.now ≡ (own_section self.now part).instrs }
        ensures sound { IsSafe self.now }
    {
        self.own(part).instrs()
    }

    /// How many operations a part's section has, of which an evaluation runs each at most once.
    pub fn length(&self, part: Part) -> usize
        ensures value { result ≡ length (own_section self.now part).instrs }
    {
        self.own_instrs(part).len()
    }

    /// The code of a part's section.
    pub(crate) fn own(&self, part: Part) -> &SectionCode
        ensures value { result.now ≡ own_section self.now part }
        ensures sound { IsSafe self.now }
    {
        self.parts.own(part)
    }

    /// How many numbers a run has on the stack at most.
    pub(crate) fn room(&self) -> usize
        ensures value { result ≡ self.now.room }
    {
        self.parts.room()
    }
}

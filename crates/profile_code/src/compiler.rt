//! From a checked profile to its flat code.
ghost use Rattle.std.specs.Prelude.{◌≡◌, [], IfOk, map};
ghost use Rattle.context_check.specs.Checked.{IsAccepted};
ghost use Rattle.context_check.specs.Subject.{subject_of};
ghost use Rattle.profile_code.specs.Correct.{IsCodeOf};
ghost use Rattle.profile_code.specs.Emit.{section_code, section_height};
ghost use Rattle.profile_code.specs.Flat.{flat_of};
ghost use Rattle.context_check.specs.Refusal.{names_in};
ghost use Rattle.lookup_table.specs.First.{rows_of};
ghost use Rattle.profile_text.specs.Expr.{assignment_in};
ghost use Rattle.profile_text.specs.Meaning.{overridden};

use crate::code::{Code, Parts, SectionCode};
use crate::scope::{Scope, Tags};
use crate::section::section;
use context_check::{Checked, Overrides};
use lookup_table::{Part, Table};
use profile_text::{Assign, Names};
use std::alloc::{AllocError, Global};

/// The code of a checked profile, which gives what the profile gives.
pub fn compile(alloc: Global, checked: &Checked) -> Result<Code, AllocError>
    ensures value { IfOk result (λ c. c ≡ flat_of (subject_of checked.now)) }
    ensures sound { IfOk result (λ c. IsCodeOf (subject_of checked.now) c) }
{
    let parts = parts_of(alloc, checked)?;
    Ok(Code { parts })
}

/// The parts of the code of a checked profile.
fn parts_of(alloc: Global, checked: &Checked) -> Result<Parts, AllocError>
    ensures value { IfOk result (λ p. p ≡ flat_of (subject_of checked.now)) }
    ensures sound { IsAccepted (subject_of checked.now) }
{
    let profile = checked.profile();
    let table = checked.table();
    let globals = profile.global.as_slice();
    let ways = profile.way.as_slice();
    let nodes = profile.node.as_slice();
    let (global, room) = global_section(alloc, checked.overrides(), globals)?;
    let (way, way_room) = part_section(alloc, table, Part::Way, &global.names, ways)?;
    let (node, node_room) = part_section(alloc, table, Part::Node, &global.names, nodes)?;
    Ok(Parts {
        global,
        way,
        node,
        room: room.max(way_room.max(node_room)),
        way_tags: table.tags(Part::Way),
        node_tags: table.tags(Part::Node),
    })
}

/// The code of the global section under overrides, which names no tags, and how many numbers it has
/// on the stack at most.
fn global_section(
    alloc: Global,
    overrides: &Overrides,
    assigns: &[Assign],
) -> Result<(SectionCode, usize), AllocError>
    ensures value { let all = map (overridden overrides.now) (map assignment_in assigns.now) in
        IfOk result (λ s. s.0.instrs ≡ section_code [] [] [] all) }
    ensures same { IfOk result (λ s. s.0.names ≡ names_in (map assignment_in assigns.now)) }
    ensures exact { let all = map (overridden overrides.now) (map assignment_in assigns.now) in
        IfOk result (λ s. s.1 ≡ section_height all) }
{
    let names = Names::new(alloc);
    let scope = Scope {
        tags: None,
        global: &names,
    };
    section(alloc, &scope, overrides, assigns)
}

/// The code of the section of a part of the table, after the names of the global one, and how many
/// numbers it has on the stack at most.
fn part_section(
    alloc: Global,
    table: &Table,
    part: Part,
    global: &Names,
    assigns: &[Assign],
) -> Result<(SectionCode, usize), AllocError>
    ensures value { let all = map (overridden []) (map assignment_in assigns.now) in
        let ops = section_code (rows_of table.now part) global.now [] all in
        IfOk result (λ s. s.0.instrs ≡ ops) }
    ensures same { IfOk result (λ s. s.0.names ≡ names_in (map assignment_in assigns.now)) }
    ensures exact { let all = map (overridden []) (map assignment_in assigns.now) in
        IfOk result (λ s. s.1 ≡ section_height all) }
{
    let overrides = Overrides::new(alloc);
    let scope = Scope {
        tags: Some(Tags { table, part }),
        global,
    };
    section(alloc, &scope, &overrides, assigns)
}

//! From the assignments of a section to its operations.
ghost use Rattle.std.specs.Prelude.{◌≡◌, ◌++◌, ◌∷◌, [], map, IfOk};
ghost use Rattle.context_check.specs.Refusal.{names_in};
ghost use Rattle.profile_code.specs.Emit.{Emits, piece_of, section_code, section_height, with_set};
ghost use Rattle.profile_code.specs.Scope.{rows_in};
ghost use Rattle.profile_text.specs.Expr.{assignment_in};
ghost use Rattle.profile_text.specs.Meaning.{overridden};

use crate::code::SectionCode;
use crate::emit::emit;
use crate::instr::Instr;
use crate::operands::put;
use crate::scope::Scope;
use context_check::Overrides;
use item_list::Items;
use profile_text::{Assign, Names};
use std::alloc::{AllocError, Global};

/// The code of a section under overrides, and how many numbers it has on the stack at most.
pub(crate) fn section(
    alloc: Global,
    scope: &Scope,
    overrides: &Overrides,
    assigns: &[Assign],
) -> Result<(SectionCode, usize), AllocError>
    ensures value { let all = map (overridden overrides.now) (map assignment_in assigns.now) in
        let ops = section_code (rows_in scope.now.tags) scope.now.global.now [] all in
        IfOk result (λ s. s.0.instrs ≡ ops) }
    ensures same { IfOk result (λ s. s.0.names ≡ names_in (map assignment_in assigns.now)) }
    ensures exact { let all = map (overridden overrides.now) (map assignment_in assigns.now) in
        IfOk result (λ s. s.1 ≡ section_height all) }
{
    let mut instrs = Vec::new(alloc);
    let mut names = Names::new(alloc);
    let mut height: usize = 0;
    'assigns: for assign in assigns {
        let one = emit_assignment(alloc, scope, overrides, &names, &mut instrs, assign)?;
        names.push(alloc, assign.name.as_slice())?;
        height = height.max(one);
    }
    let instrs = Items::from_vec(instrs);
    Ok((SectionCode { instrs, names }, height))
}

/// Appends the operations of an assignment.
fn emit_assignment(
    alloc: Global,
    scope: &Scope,
    overrides: &Overrides,
    own: &Names,
    code: &mut Vec<Instr>,
    assign: &Assign,
) -> Result<usize, AllocError>
    ensures exact { let tree = (overridden overrides.now (assignment_in assign.now)).value in
        let piece = piece_of (rows_in scope.now.tags) scope.now.global.now own.now tree in
        Emits (with_set piece) code.old.items code.new.items result }
{
    let height = emit_value(alloc, scope, overrides, own, code, assign)?;
    put(code, Instr::Set)?;
    Ok(height)
}

/// Appends the operations of an assignment's value.
fn emit_value(
    alloc: Global,
    scope: &Scope,
    overrides: &Overrides,
    own: &Names,
    code: &mut Vec<Instr>,
    assign: &Assign,
) -> Result<usize, AllocError>
    ensures exact { let tree = (overridden overrides.now (assignment_in assign.now)).value in
        let piece = piece_of (rows_in scope.now.tags) scope.now.global.now own.now tree in
        Emits piece code.old.items code.new.items result }
{
    match overrides.find(assign.name.as_slice()) {
        None => emit(alloc, scope, own, code, &assign.value),
        Some(number) => {
            put(code, Instr::Number(number))?;
            Ok(1)
        }
    }
}

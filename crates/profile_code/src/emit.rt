//! From an expression to its operations.
ghost use Rattle.std.specs.Prelude.{◌≡◌, ◌-◌, ◌<◌, ◌≤◌, ◌++◌, ◌∷◌, [], List, length, max, slice_set, suc, IfOk, OnOk};
ghost use Rattle.profile_code.specs.declared.instr.Instr.{Instr};
ghost use Rattle.profile_code.specs.declared.instr.Instr.TheVariants.{JumpZero, Jump};
ghost use Rattle.profile_code.specs.Emit.{Emits, piece_of};
ghost use Rattle.profile_code.specs.Operands.{behind, between};
ghost use Rattle.profile_code.specs.Scope.{rows_in};
ghost use Rattle.profile_text.specs.Expr.{tree_of};

use crate::instr::Instr;
use crate::look::{look, variable};
use crate::operands::{begin_second, end_second, put};
use crate::scope::Scope;
use profile_text::{Expr, Names, Op};
use std::alloc::{AllocError, Global};

/// Appends the operations of an expression, after these names of its section; and returns how many
/// numbers they have on the stack at most.
pub(crate) fn emit(
    alloc: Global,
    scope: &Scope,
    own: &Names,
    code: &mut Vec<Instr>,
    expr: &Expr,
) -> Result<usize, AllocError>
    ensures exact { let rows = rows_in scope.now.tags in
        let piece = piece_of rows scope.now.global.now own.now (tree_of expr.now) in
        Emits piece code.old.items code.new.items result }
{
    match expr {
        Expr::Number(number) => put_behind(code, Instr::Number(*number), 1),
        Expr::Var { name, line: _ } => {
            put_behind(code, variable(scope.global, own, name.as_slice()), 1)
        }
        Expr::Look {
            tag,
            values,
            line: _,
        } => {
            let look = look(alloc, &scope.tags, tag, values.as_slice())?;
            put_behind(code, look, 1)
        }
        Expr::Not(a) => {
            let height = emit(alloc, scope, own, code, a)?;
            put_behind(code, Instr::Not, height)
        }
        Expr::Two(op, a, b) => {
            let first = emit(alloc, scope, own, code, a)?;
            let start = begin_second(code, *op)?;
            let second = emit(alloc, scope, own, code, b)?;
            end_two(code, *op, start, first, second)
        }
        Expr::Pick(a, b, c) => {
            let first = emit(alloc, scope, own, code, a)?;
            let test = code.len();
            put(code, Instr::JumpZero(0))?;
            let second = emit(alloc, scope, own, code, b)?;
            let jump = code.len();
            put(code, Instr::Jump(0))?;
            let third = emit(alloc, scope, own, code, c)?;
            close_choice(code, test, jump);
            Ok(first.max(second.max(third)))
        }
    }
}

/// Appends what stands behind the second operand of an operator, which begins at a place, and
/// writes the jump over it; and returns how many numbers both operands have on the stack at most.
fn end_two(
    code: &mut Vec<Instr>,
    op: Op,
    start: usize,
    first: usize,
    second: usize,
) -> Result<usize, AllocError>
    requires begun { length (between op 0) ≤ start }
    requires within { start ≤ length code.old.items }
    ensures value { (front b : List Instr) → code.old.items ≡ (front ++ between op 0) ++ b
        → start ≡ length (front ++ between op 0)
        → OnOk result (code.new.items ≡ front ++ (between op (length b) ++ (b ++ behind op))) }
    ensures exact { IfOk result (λ height. height ≡ max first (suc second)) }
{
    end_second(code, op, start)?;
    Ok(first.max(above(second)?))
}

/// Writes the jumps of a choice, which stand at these places: over its second operand with the jump
/// behind it, and over its third.
fn close_choice(code: &mut Vec<Instr>, test: usize, jump: usize)
    requires order { test < jump }
    requires within { jump < length code.old.items }
    ensures value { code.new.items ≡
        slice_set (slice_set code.old.items test (JumpZero (jump - test))) jump
        (Jump (length code.old.items - jump - 1)) }
{
    code[test] = Instr::JumpZero(jump - test);
    code[jump] = Instr::Jump(code.len() - jump - 1);
}

/// Appends one operation behind what has so many numbers on the stack at most, and returns that.
fn put_behind(code: &mut Vec<Instr>, instr: Instr, height: usize) -> Result<usize, AllocError>
    ensures value { OnOk result (code.new.items ≡ code.old.items ++ instr ∷ []) }
    ensures exact { IfOk result (λ same. same ≡ height) }
{
    put(code, instr)?;
    Ok(height)
}

/// A height above one more number; past the range of machine numbers it is answered as want of
/// memory.
fn above(height: usize) -> Result<usize, AllocError>
    ensures exact { IfOk result (λ higher. higher ≡ suc height) }
{
    height.checked_add(1).ok_or(AllocError)
}

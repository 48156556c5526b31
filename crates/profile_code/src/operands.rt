//! The operations of operators between and behind their operands.
ghost use Rattle.std.specs.Prelude.{◌≡◌, ◌+◌, ◌≤◌, List, ◌∷◌, [], ◌++◌, pos, length, IfOk, OnOk, if◌then◌else◌};
ghost use Rattle.profile_code.specs.declared.instr.Instr.{Instr};
ghost use Rattle.profile_code.specs.Operands.{behind, between};

use crate::instr::Instr;
use fixed_num::Num;
use profile_text::Op;
use std::alloc::AllocError;

/// Appends what stands between the operands of an operator, its jump for a second operand of no
/// operation; and returns where the second one's operations begin.
pub(crate) fn begin_second(code: &mut Vec<Instr>, op: Op) -> Result<usize, AllocError>
    ensures value { OnOk result (code.new.items ≡ code.old.items ++ between op 0) }
    ensures fits { IfOk result (λ start. start ≡ length code.new.items) }
{
    match op {
        Op::And => put(code, Instr::JumpZero(2))?,
        Op::Or => {
            put(code, Instr::JumpZero(2))?;
            put(code, Instr::Number(truth(true)))?;
            put(code, Instr::Jump(1))?;
        }
        _ => {}
    }
    Ok(code.len())
}

/// Appends what stands behind the second operand, which begins at a place, and writes the jump over
/// it.
pub(crate) fn end_second(code: &mut Vec<Instr>, op: Op, start: usize) -> Result<(), AllocError>
    requires begun { length (between op 0) ≤ start }
    requires within { start ≤ length code.old.items }
    ensures value { (front b : List Instr) → code.old.items ≡ (front ++ between op 0) ++ b
        → start ≡ length (front ++ between op 0)
        → OnOk result (code.new.items ≡ front ++ (between op (length b) ++ (b ++ behind op))) }
{
    match op {
        Op::And => {
            put(code, Instr::Truth)?;
            put(code, Instr::Jump(1))?;
            put(code, Instr::Number(truth(false)))?;
            code[start - 1] = Instr::JumpZero(code.len() - start - 1);
            Ok(())
        }
        Op::Or => {
            put(code, Instr::Truth)?;
            code[start - 1] = Instr::Jump(code.len() - start);
            Ok(())
        }
        _ => put(code, Instr::Two(op)),
    }
}

/// Appends one operation.
pub(crate) fn put(code: &mut Vec<Instr>, instr: Instr) -> Result<(), AllocError>
    ensures value { OnOk result (code.new.items ≡ code.old.items ++ instr ∷ []) }
{
    code.push(instr)?;
    Ok(())
}

/// The number of a truth.
pub(crate) fn truth(holds: bool) -> Num
    ensures exact { result ≡ (if holds then pos 1000000 else pos 0) }
{
    let millionths = if holds { 1_000_000 } else { 0 };
    match Num::of(millionths) {
        Some(number) => number,
        None => unreachable!(),
    }
}

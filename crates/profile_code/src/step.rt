//! One operation.
ghost use Rattle.std.specs.Prelude.{◌≡◌};
ghost use Rattle.std.specs.Prelude.{◌<◌, Some, length, slice_get, List, ℤ};
ghost use Rattle.profile_code.specs.Machine.{Next, act, computed, look_value, on_top};
ghost use Rattle.profile_code.specs.Step.{IsReady, came_to, given_of};
ghost use Rattle.profile_text.specs.Meaning.{is_listed, result_of, truth};

use crate::instr::{Instr, Look};
use crate::operators::{is_true, result_of, truth};
use crate::stack::Stack;
use crate::values::Values;
use fixed_num::{Arith, Num};
use profile_text::Op;

/// Carries out an operation: how many operations are passed after it, or its fault.
pub(crate) fn step(
    instr: &Instr,
    numbers: &[u16],
    global: &[Num],
    stack: &mut Stack,
    own: &mut Values,
) -> Result<usize, Arith>
    requires ready { let given = given_of numbers.now global.now stack.old own.old in
        IsReady given instr.now stack.old.numbers own.old.numbers }
    ensures exact { let given = given_of numbers.now global.now stack.old own.old in
        (next : Next) → act given instr.now next stack.old.numbers own.old.numbers
        ≡ came_to result next stack.new.numbers own.new.numbers }
    ensures same { stack.new.room ≡ stack.old.room }
    ensures kept { own.new.room ≡ own.old.room }
{
    match instr {
        Instr::Number(number) => stack.push(*number),
        Instr::Own(place) => stack.push(own.as_slice()[*place as usize]),
        Instr::Global(place) => stack.push(global[*place as usize]),
        Instr::Look(look) => stack.push(look_at(look, numbers)),
        Instr::Not => {
            let top = stack.pop();
            stack.push(truth(!is_true(top)));
        }
        Instr::Truth => {
            let top = stack.pop();
            stack.push(truth(is_true(top)));
        }
        Instr::Two(op) => return combine(*op, stack),
        Instr::JumpZero(passed) => {
            if !is_true(stack.pop()) {
                return Ok(*passed);
            }
        }
        Instr::Jump(passed) => return Ok(*passed),
        Instr::Set => own.push(stack.pop()),
    }
    Ok(0)
}

/// The truth of a look among tag numbers.
fn look_at(look: &Look, numbers: &[u16]) -> Num
    requires within { look.now.tag < length numbers.now }
    ensures exact { look_value look.now.numbers (slice_get numbers.now look.now.tag) ≡ Some result }
{
    truth(is_listed(numbers[look.tag as usize], look.numbers.as_slice()))
}

/// Whether a number is among those that are asked for.
fn is_listed(number: u16, asked: &[u16]) -> bool
    ensures exact { result ≡ is_listed number asked.now }
{
    asked.contains(&number)
}

/// Takes two operands, and pushes what an operator makes of them.
fn combine(op: Op, stack: &mut Stack) -> Result<usize, Arith>
    requires two { 1 < length stack.old.numbers }
    ensures exact { (next : Next) → (own : List ℤ) →
        on_top stack.old.numbers
        (λ b rest. on_top rest (λ a below. computed (result_of op a b) next below own))
        ≡ came_to result next stack.new.numbers own }
    ensures same { stack.new.room ≡ stack.old.room }
{
    let b = stack.pop();
    let a = stack.pop();
    stack.push(result_of(op, a, b)?);
    Ok(0)
}

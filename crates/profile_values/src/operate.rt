//! What operators make of numbers.
ghost use Rattle.std.specs.Prelude.{◌≡◌};
ghost use Rattle.profile_text.specs.Meaning.{decided_by, is_true, result_of, truth};

use fixed_num::{Arith, Num};
use profile_text::Op;

/// The number of a truth.
pub(crate) fn truth(holds: bool) -> Num
    ensures value { result ≡ truth holds }
{
    let millionths = if holds { 1_000_000 } else { 0 };
    match Num::of(millionths) {
        Some(number) => number,
        None => unreachable!(),
    }
}

/// Whether a number is true: all but zero are.
pub(crate) fn is_true(number: Num) -> bool
    ensures value { result ≡ is_true number }
{
    number.millionths() != 0
}

/// What an operator comes to where its first operand decides.
pub(crate) fn decided_by(op: Op, first: Num) -> Option<Num>
    ensures value { result ≡ decided_by op first }
{
    match op {
        Op::And if !is_true(first) => Some(truth(false)),
        Op::Or if is_true(first) => Some(truth(true)),
        _ => None,
    }
}

/// What an operator makes of two operands, where the first doesn't decide.
pub(crate) fn result_of(op: Op, first: Num, second: Num) -> Result<Num, Arith>
    ensures value { result ≡ result_of op first second }
{
    match op {
        Op::Or | Op::And => Ok(truth(is_true(second))),
        Op::Xor => Ok(truth(is_true(first) != is_true(second))),
        Op::Multiply => first.mul(second),
        Op::Divide => first.div(second),
        Op::Add => first.add(second),
        Op::Sub => first.sub(second),
        Op::Max => Ok(first.max(second)),
        Op::Min => Ok(first.min(second)),
        Op::Equal => Ok(truth(first.millionths() == second.millionths())),
        Op::Greater => Ok(truth(first.millionths() > second.millionths())),
        Op::Lesser => Ok(truth(first.millionths() < second.millionths())),
    }
}

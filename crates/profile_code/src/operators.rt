//! What operators make of numbers.
ghost use Rattle.std.specs.Prelude.{◌≡◌};
ghost use Rattle.profile_text.specs.Meaning.{is_true, truth, result_of};

use fixed_num::{Arith, Num};
use profile_text::Op;

/// The number of a truth.
pub(crate) fn truth(holds: bool) -> Num
    ensures exact { result ≡ truth holds }
{
    Num::of(if holds { 1_000_000 } else { 0 }).unwrap()
}

/// Whether a number counts as true.
pub(crate) fn is_true(number: Num) -> bool
    ensures exact { result ≡ is_true number }
{
    number.millionths() != 0
}

/// What an operator makes of two operands, where the first doesn't decide.
pub(crate) fn result_of(op: Op, a: Num, b: Num) -> Result<Num, Arith>
    ensures exact { result ≡ result_of op a b }
{
    match op {
        Op::Or | Op::And => Ok(truth(is_true(b))),
        Op::Xor => Ok(truth(is_true(a) != is_true(b))),
        Op::Multiply => a.mul(b),
        Op::Divide => a.div(b),
        Op::Add => a.add(b),
        Op::Sub => a.sub(b),
        Op::Max => Ok(a.max(b)),
        Op::Min => Ok(a.min(b)),
        Op::Equal => Ok(truth(a.millionths() == b.millionths())),
        Op::Greater => Ok(truth(a.millionths() > b.millionths())),
        Op::Lesser => Ok(truth(a.millionths() < b.millionths())),
    }
}

//! The value of an expression.
ghost use Rattle.std.specs.Prelude.{◌≡◌, not, Ok};
ghost use Rattle.profile_text.specs.Expr.{tree_of};
ghost use Rattle.profile_text.specs.Meaning.{and_then, arithmetic, known};
ghost use Rattle.profile_text.specs.Meaning as meaning;
ghost use Rattle.profile_values.specs.Evaluated.{outcome_in, value_in};

use crate::fault::Fault;
use crate::operate::{decided_by, is_true, result_of, truth};
use crate::scope::Scope;
use fixed_num::Num;
use profile_text::{Expr, Op};

/// The value of an expression, or the first fault that its evaluation meets.
pub(crate) fn evaluate(expr: &Expr, scope: &Scope) -> Result<Num, Fault>
    ensures value { outcome_in result ≡ value_in scope.now (tree_of expr.now) }
{
    match expr {
        Expr::Number(number) => Ok(*number),
        Expr::Var { name, line } => known_number(*line, scope.variable(name.as_slice())),
        Expr::Look { tag, values, line } => {
            known_truth(*line, scope.look(tag.as_slice(), values.as_slice()))
        }
        Expr::Not(operand) => negated(evaluate(operand, scope)),
        Expr::Two(op, first, second) => {
            let number = evaluate(first, scope)?;
            match decided_by(*op, number) {
                Some(decided) => Ok(decided),
                None => applied(*op, number, evaluate(second, scope)),
            }
        }
        Expr::Pick(test, chosen, other) => {
            let number = evaluate(test, scope)?;
            if is_true(number) {
                evaluate(chosen, scope)
            } else {
                evaluate(other, scope)
            }
        }
    }
}

/// The value that a variable is known to have.
fn known_number(line: u32, value: Option<Num>) -> Result<Num, Fault>
    ensures value { outcome_in result ≡ known line value }
{
    match value {
        Some(number) => Ok(number),
        None => Err(Fault::Unknown(line)),
    }
}

/// The number of what a look is known to come to.
fn known_truth(line: u32, value: Option<bool>) -> Result<Num, Fault>
    ensures value { outcome_in result
        ≡ and_then (known line value) (λ found. Ok (meaning.truth found)) }
{
    match value {
        Some(found) => Ok(truth(found)),
        None => Err(Fault::Unknown(line)),
    }
}

/// The negation of an operand, where it has a value.
fn negated(operand: Result<Num, Fault>) -> Result<Num, Fault>
    ensures value { outcome_in result
        ≡ and_then (outcome_in operand) (λ n. Ok (meaning.truth (not (meaning.is_true n)))) }
{
    let number = operand?;
    Ok(truth(!is_true(number)))
}

/// What an operator makes of two operands, where the second has a value.
fn applied(op: Op, first: Num, second: Result<Num, Fault>) -> Result<Num, Fault>
    ensures value { outcome_in result
        ≡ and_then (outcome_in second) (λ n. arithmetic (meaning.result_of op first n)) }
{
    let other = second?;
    match result_of(op, first, other) {
        Ok(number) => Ok(number),
        Err(kind) => Err(Fault::Faulty(kind)),
    }
}

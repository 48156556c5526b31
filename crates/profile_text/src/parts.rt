//! Expressions made of what was read.
ghost use Rattle.std.specs.Prelude.{◌≡◌, ◌*◌, pos, if◌then◌else◌, Ok};
ghost use Rattle.item_list.specs.Answer.{Answers};
ghost use Rattle.profile_text.specs.declared.error.TextError.TheVariants.{NoMemory};
ghost use Rattle.profile_text.specs.Expr.{tree_of};
ghost use Rattle.profile_text.specs.Look.{tag_of, values_of};
ghost use Rattle.profile_text.specs.Tree.{Choice, Negation, Operation, TagLook, Variable};

use crate::error::TextError;
use crate::expr::{Expr, Op};
use crate::look::{copied, tag_of, values_of};
use crate::source::Token;
use fixed_num::Num;
use std::alloc::Global;

/// The number of `true` or `false`.
pub(crate) fn truth(holds: bool) -> Num
    ensures value { result ≡ (if holds then pos 1000000 else pos 0) }
{
    let millionths = if holds { 1_000_000 } else { 0 };
    match Num::of(millionths) {
        Some(number) => number,
        None => unreachable!(),
    }
}

/// The variable that a token names.
pub(crate) fn variable_of(alloc: Global, token: Token) -> Result<Expr, TextError>
    ensures exact { let variable = Variable token.entry.bytes.now token.entry.line in
        Answers tree_of (Ok variable) NoMemory result }
{
    let name = copied(alloc, token.bytes)?;
    Ok(Expr::Var {
        name,
        line: token.line,
    })
}

/// The look that a token spells.
pub(crate) fn look_of(alloc: Global, token: Token) -> Result<Expr, TextError>
    ensures exact { let text = token.entry.bytes.now in
        let look = TagLook (tag_of text) (values_of text) token.entry.line in
        Answers tree_of (Ok look) NoMemory result }
{
    let tag = tag_of(alloc, token.bytes)?;
    let values = values_of(alloc, token.bytes)?;
    Ok(Expr::Look {
        tag,
        values,
        line: token.line,
    })
}

/// The negation of an expression.
pub(crate) fn negation_of(alloc: Global, operand: Expr) -> Result<Expr, TextError>
    ensures exact { Answers tree_of (Ok (Negation (tree_of operand))) NoMemory result }
{
    let operand = Box::new(alloc, operand)?;
    Ok(Expr::Not(operand))
}

/// An operator with its two operands.
pub(crate) fn operation_of(
    alloc: Global,
    op: Op,
    first: Expr,
    second: Expr,
) -> Result<Expr, TextError>
    ensures exact { let operation = Operation op (tree_of first) (tree_of second) in
        Answers tree_of (Ok operation) NoMemory result }
{
    let first = Box::new(alloc, first)?;
    let second = Box::new(alloc, second)?;
    Ok(Expr::Two(op, first, second))
}

/// The choice between two expressions.
pub(crate) fn choice_of(
    alloc: Global,
    test: Expr,
    chosen: Expr,
    other: Expr,
) -> Result<Expr, TextError>
    ensures exact { let choice = Choice (tree_of test) (tree_of chosen) (tree_of other) in
        Answers tree_of (Ok choice) NoMemory result }
{
    let test = Box::new(alloc, test)?;
    let chosen = Box::new(alloc, chosen)?;
    let other = Box::new(alloc, other)?;
    Ok(Expr::Pick(test, chosen, other))
}

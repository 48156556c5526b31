//! Reading an expression.
ghost use Rattle.std.specs.Prelude.{◌≡◌};
ghost use Rattle.profile_text.specs.Expr.{tree_of};
ghost use Rattle.profile_text.specs.Read.{and_then, taken, expr_of, form_of, not_of, two_of, switch_of, if_of, bracket_of};
ghost use Rattle.profile_text.specs.Source.{Reads, token_of};

use crate::error::{TextError, TextKind};
use crate::expected::Expected;
use crate::expr::{Expr, Op};
use crate::kind::{Kind, kind_of};
use crate::parts::{choice_of, look_of, negation_of, operation_of, truth, variable_of};
use crate::source::{Reader, Token};
use crate::take::taken;
use std::alloc::Global;

/// The expression at a place, where at most `room` more may be open at once.
#[cycle(expression)]
#[tactic(auto, unfolding(crate::specs::Read::expr_of))]
pub(crate) fn read_expr(alloc: Global, room: u32, reader: &mut Reader) -> Result<Expr, TextError>
    ensures exact { Reads tree_of (expr_of room reader.old) reader.new result }
{
    let token = taken(reader, Expected::Expression)?;
    if room == 0 {
        return Err(TextError::At {
            line: token.line,
            kind: TextKind::Deep,
        });
    }
    read_form(alloc, room - 1, token, kind_of(token.bytes), reader)
}

/// The expression that a token of this kind begins.
#[cycle(expression)]
fn read_form(
    alloc: Global,
    room: u32,
    token: Token,
    kind: Kind,
    reader: &mut Reader,
) -> Result<Expr, TextError>
    ensures exact { let form = form_of (expr_of room) (token_of token.entry) kind reader.old in
        Reads tree_of form reader.new result }
{
    match kind {
        Kind::Number(number) => Ok(Expr::Number(number)),
        Kind::True => Ok(Expr::Number(truth(true))),
        Kind::False => Ok(Expr::Number(truth(false))),
        Kind::Name => variable_of(alloc, token),
        Kind::Look => look_of(alloc, token),
        Kind::Not => read_not(alloc, room, reader),
        Kind::Two(op) => read_two(alloc, room, op, reader),
        Kind::Switch => read_switch(alloc, room, reader),
        Kind::If => read_if(alloc, room, reader),
        Kind::Open => read_bracket(alloc, room, reader),
        _ => Err(TextError::At {
            line: token.line,
            kind: TextKind::Token,
        }),
    }
}

/// The operand of `not`.
#[cycle(expression)]
fn read_not(alloc: Global, room: u32, reader: &mut Reader) -> Result<Expr, TextError>
    ensures exact { Reads tree_of (not_of (expr_of room) reader.old) reader.new result }
{
    let operand = read_expr(alloc, room, reader)?;
    negation_of(alloc, operand)
}

/// Two operands.
#[cycle(expression)]
fn read_two(alloc: Global, room: u32, op: Op, reader: &mut Reader) -> Result<Expr, TextError>
    ensures exact { Reads tree_of (two_of (expr_of room) op reader.old) reader.new result }
{
    let first = read_expr(alloc, room, reader)?;
    let second = read_expr(alloc, room, reader)?;
    operation_of(alloc, op, first, second)
}

/// The three operands of `switch`.
#[cycle(expression)]
fn read_switch(alloc: Global, room: u32, reader: &mut Reader) -> Result<Expr, TextError>
    ensures exact { Reads tree_of (switch_of (expr_of room) reader.old) reader.new result }
{
    let test = read_expr(alloc, room, reader)?;
    let chosen = read_expr(alloc, room, reader)?;
    let other = read_expr(alloc, room, reader)?;
    choice_of(alloc, test, chosen, other)
}

/// The three operands of `if`, parted by `then` and `else`.
#[cycle(expression)]
fn read_if(alloc: Global, room: u32, reader: &mut Reader) -> Result<Expr, TextError>
    ensures exact { Reads tree_of (if_of (expr_of room) reader.old) reader.new result }
{
    let test = read_expr(alloc, room, reader)?;
    let chosen = read_after(alloc, room, Expected::ThenWord, reader)?;
    let other = read_after(alloc, room, Expected::ElseWord, reader)?;
    choice_of(alloc, test, chosen, other)
}

/// The expression after a word.
#[cycle(expression)]
fn read_after(
    alloc: Global,
    room: u32,
    word: Expected,
    reader: &mut Reader,
) -> Result<Expr, TextError>
    ensures exact { let after = and_then (taken word reader.old) (λ _ p. expr_of room p) in
        Reads tree_of after reader.new result }
{
    taken(reader, word)?;
    read_expr(alloc, room, reader)
}

/// An expression and its closing bracket.
#[cycle(expression)]
fn read_bracket(alloc: Global, room: u32, reader: &mut Reader) -> Result<Expr, TextError>
    ensures exact { Reads tree_of (bracket_of (expr_of room) reader.old) reader.new result }
{
    let value = read_expr(alloc, room, reader)?;
    taken(reader, Expected::Closing)?;
    Ok(value)
}

//! The first thing at fault in an expression.
ghost use Rattle.std.specs.Prelude.{◌≡◌};
ghost use Rattle.context_check.specs.Context.{context_of};
ghost use Rattle.context_check.specs.Refusal.{expr_refusal, variable_refusal};
ghost use Rattle.profile_text.specs.Expr.{tree_of};

use crate::context::Context;
use crate::error::CheckError;
use crate::look::look_fault;
use profile_text::{Expr, Names};

/// The first thing at fault in an expression of a section, from the left, after these names of its
/// own.
pub(crate) fn expr_fault(context: &Context, own: &Names, expr: &Expr) -> Option<CheckError>
    ensures exact { result ≡ expr_refusal (context_of context.now) own.now (tree_of expr.now) }
{
    match expr {
        Expr::Number(_) => None,
        Expr::Var { name, line } => variable_fault(context.global, own, name.as_slice(), *line),
        Expr::Look { tag, values, line } => {
            look_fault(context, tag.as_slice(), values.as_slice(), *line)
        }
        Expr::Not(a) => expr_fault(context, own, a),
        Expr::Two(_, a, b) => match expr_fault(context, own, a) {
            Some(fault) => Some(fault),
            None => expr_fault(context, own, b),
        },
        Expr::Pick(a, b, c) => match expr_fault(context, own, a) {
            Some(fault) => Some(fault),
            None => match expr_fault(context, own, b) {
                Some(fault) => Some(fault),
                None => expr_fault(context, own, c),
            },
        },
    }
}

/// Why a variable isn't known after these names.
fn variable_fault(global: &Names, own: &Names, name: &[u8], line: u32) -> Option<CheckError>
    ensures exact { result ≡ variable_refusal global.now own.now name.now line }
{
    if own.last(name).is_some() || global.last(name).is_some() {
        None
    } else {
        Some(CheckError::UnknownName { line })
    }
}

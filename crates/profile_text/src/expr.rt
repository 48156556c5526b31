//! The expressions of a profile.

use fixed_num::Num;
use item_list::{Items, Name};

/// An operator of two operands.
#[derive(Clone, Copy)]
pub enum Op {
    /// 1 where an operand is nonzero; the second is looked at only where the first is zero.
    Or,
    /// 1 where both operands are nonzero; the second is looked at only where the first is nonzero.
    And,
    /// 1 where exactly one operand is nonzero.
    Xor,
    /// The product.
    Multiply,
    /// The quotient.
    Divide,
    /// The sum.
    Add,
    /// The difference.
    Sub,
    /// The greater operand.
    Max,
    /// The lesser operand.
    Min,
    /// 1 where the operands are equal.
    Equal,
    /// 1 where the first operand is the greater.
    Greater,
    /// 1 where the first operand is the lesser.
    Lesser,
}

/// An expression.
pub enum Expr {
    /// A number.
    Number(Num),
    /// A variable, with the line of its name.
    Var {
        name: Name,
        line: u32,
    },
    /// Whether a tag has one of these values; none of them means that it isn't set.
    Look {
        tag: Name,
        values: Items<Name>,
        line: u32,
    },
    /// 1 where the operand is zero.
    Not(Box<Expr>),
    /// An operator with its two operands.
    Two(Op, Box<Expr>, Box<Expr>),
    /// The second operand where the first is nonzero, else the third.
    Pick(Box<Expr>, Box<Expr>, Box<Expr>),
}

impl Drop for Expr {
    fn drop(self) {
        match self {
            Expr::Number(_) => {}
            Expr::Var { name: _, line: _ } => {}
            Expr::Look {
                tag: _,
                values: _,
                line: _,
            } => {}
            Expr::Not(_) => {}
            Expr::Two(_, _, _) => {}
            Expr::Pick(_, _, _) => {}
        }
    }
}

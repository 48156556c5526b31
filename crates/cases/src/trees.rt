//! Cases on the reader of profiles.

use crate::texts::{NO_CALL, OUTSIDE, shown};
use case_inputs::{Case, place_of, profile_of};
use item_list::Name;
use profile_text::{Assign, Expr, Op, Profile};
use std::alloc::{AllocError, Global};

/// The calls on reading.
pub(crate) const CALLS: [&str; 2] = ["profile", "tree"];

/// The answer to a case on reading.
pub(crate) fn answer(alloc: Global, case: &Case) -> Result<String, AllocError> {
    match place_of(&CALLS, case.word(0)) {
        0 => outcome(alloc, case.word(1)),
        1 => trees(alloc, case),
        _ => String::from_str(alloc, NO_CALL),
    }
}

/// The line of the refusal of a text, or that it is accepted.
fn outcome(alloc: Global, text: &[u8]) -> Result<String, AllocError> {
    if text.len() >= 1 << 31 {
        return String::from_str(alloc, OUTSIDE);
    }
    match Profile::read(alloc, text) {
        Ok(_) => String::from_str(alloc, "accepted"),
        Err(error) => error.line(alloc),
    }
}

/// The assignments of a section of a profile.
fn trees(alloc: Global, case: &Case) -> Result<String, AllocError> {
    match profile_of(alloc, case.word(1)) {
        Some(profile) => tree(alloc, &profile, case.word(2)),
        None => String::from_str(alloc, OUTSIDE),
    }
}

/// The assignments of the section of a name; any other name is that of the nodes.
fn tree(alloc: Global, profile: &Profile, section: &[u8]) -> Result<String, AllocError> {
    match place_of(&["global", "way"], section) {
        0 => listed(alloc, profile.global.as_slice()),
        1 => listed(alloc, profile.way.as_slice()),
        _ => listed(alloc, profile.node.as_slice()),
    }
}

/// The line, the name and the expression of each assignment, each with a line feed behind it.
fn listed(alloc: Global, section: &[Assign]) -> Result<String, AllocError> {
    let mut out = String::new(alloc);
    for assign in section {
        show_assign(&mut out, assign)?;
        out.push('\n')?;
    }
    Ok(out)
}

/// Writes an assignment.
fn show_assign(out: &mut String, assign: &Assign) -> Result<(), AllocError> {
    write!(out, "{} {}", assign.line, shown(assign.name.as_slice()))?;
    show(out, &assign.value)
}

/// The word for an operator.
fn word_of(op: Op) -> &'static str {
    match op {
        Op::Or => " or",
        Op::And => " and",
        Op::Xor => " xor",
        Op::Multiply => " multiply",
        Op::Divide => " divide",
        Op::Add => " add",
        Op::Sub => " sub",
        Op::Max => " max",
        Op::Min => " min",
        Op::Equal => " equal",
        Op::Greater => " greater",
        Op::Lesser => " lesser",
    }
}

/// Writes a look: its tag, `=`, and its values parted by `|`.
fn show_look(out: &mut String, tag: &[u8], values: &[Name]) -> Result<(), AllocError> {
    write!(out, " {}=", shown(tag))?;
    let mut mark = "";
    for value in values {
        write!(out, "{mark}{}", shown(value.as_slice()))?;
        mark = "|";
    }
    Ok(())
}

/// Writes what stands before the parts of an expression; numbers as millionths, choices as
/// `switch`.
fn show_head(out: &mut String, expr: &Expr) -> Result<(), AllocError> {
    match expr {
        Expr::Number(number) => write!(out, " {}", number.millionths()),
        Expr::Var { name, .. } => write!(out, " {}", shown(name.as_slice())),
        Expr::Look { tag, values, .. } => show_look(out, tag.as_slice(), values.as_slice()),
        Expr::Not(_) => out.push_str(" not"),
        Expr::Two(op, _, _) => out.push_str(word_of(*op)),
        Expr::Pick(_, _, _) => out.push_str(" switch"),
    }
}

/// Writes an expression with a space before each part.
fn show(out: &mut String, expr: &Expr) -> Result<(), AllocError> {
    show_head(out, expr)?;
    match expr {
        Expr::Not(operand) => show(out, operand),
        Expr::Two(_, first, second) => {
            show(out, first)?;
            show(out, second)
        }
        Expr::Pick(test, chosen, other) => {
            show(out, test)?;
            show(out, chosen)?;
            show(out, other)
        }
        _ => Ok(()),
    }
}

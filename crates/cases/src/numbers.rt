//! Cases on fixed-point numbers, coordinates and six decimals.

use crate::texts::{NO_CALL, OUTSIDE, perhaps, shown, text_of, truth};
use case_inputs::{Case, place_of};
use fixed_num::{Arith, CoordError, Num, NumError, SixDecimals, append_mil6, coord};
use std::alloc::{AllocError, Global};

/// The calls on numbers; the last six are operations.
pub(crate) const CALLS: [&str; 11] = [
    "literal",
    "coord",
    "is_number",
    "six",
    "append_six",
    "add",
    "sub",
    "mul",
    "div",
    "max",
    "min",
];

/// The answer to a case on numbers.
pub(crate) fn answer(alloc: Global, case: &Case) -> Result<String, AllocError> {
    match place_of(&CALLS, case.word(0)) {
        0 => literal(alloc, case.word(1)),
        1 => coordinate(alloc, case),
        2 => truth(alloc, Num::of(case.signed(1)).is_some()),
        3 => text_of(alloc, SixDecimals::of(case.wide(1)).as_slice()),
        4 => appended(alloc, case.wide(1)),
        call => operation(alloc, case, call),
    }
}

/// The millionths of a literal, or why it is none.
fn literal(alloc: Global, text: &[u8]) -> Result<String, AllocError> {
    match Num::read(text) {
        Ok(number) => perhaps(alloc, Some(i128::from(number.millionths()))),
        Err(NumError::NotNumber) => String::from_str(alloc, "not a number"),
        Err(NumError::TooLarge) => String::from_str(alloc, "too large"),
    }
}

/// The microdegrees of a coordinate, or why it is none.
fn coordinate(alloc: Global, case: &Case) -> Result<String, AllocError> {
    let most = case.signed(2);
    if most < 0 || most > 180_000_000 {
        return String::from_str(alloc, OUTSIDE);
    }
    match coord(case.word(1), most) {
        Ok(microdegrees) => perhaps(alloc, Some(i128::from(microdegrees))),
        Err(CoordError::NotDecimal) => String::from_str(alloc, "not decimal"),
        Err(CoordError::OutOfRange) => String::from_str(alloc, "out of range"),
    }
}

/// The millionths of the operation at a place of the calls on two numbers, or its fault.
fn operation(alloc: Global, case: &Case, call: usize) -> Result<String, AllocError> {
    let (Some(a), Some(b)) = (Num::of(case.signed(1)), Num::of(case.signed(2))) else {
        return String::from_str(alloc, OUTSIDE);
    };
    let found = match call {
        5 => a.add(b),
        6 => a.sub(b),
        7 => a.mul(b),
        8 => a.div(b),
        9 => Ok(a.max(b)),
        10 => Ok(a.min(b)),
        _ => return String::from_str(alloc, NO_CALL),
    };
    outcome(alloc, found)
}

/// The millionths of a number, or the fault of its operation.
fn outcome(alloc: Global, outcome: Result<Num, Arith>) -> Result<String, AllocError> {
    match outcome {
        Ok(number) => perhaps(alloc, Some(i128::from(number.millionths()))),
        Err(Arith::DivZero) => String::from_str(alloc, "division by zero"),
        Err(Arith::TooLarge) => String::from_str(alloc, "too large"),
    }
}

/// The line `xx..x` with the text of the millionths put in at its third byte, and where the text
/// ends.
fn appended(alloc: Global, millionths: i128) -> Result<String, AllocError> {
    let mut line = [b'x'; 60];
    let end = append_mil6(&mut line, 2, millionths);
    format!(in alloc; "{end} {}", shown(line.as_slice()))
}

//! Cases on flat code and its runs.

ghost use Rattle.profile_code.specs.Scratch.{IsScratchOf, HoldsGlobals};
ghost use Rattle.way_class.specs.Parts.{HasTags};

use crate::inputs::{numbers_from, overrides_from};
use crate::texts::{NO_CALL, OUTSIDE, text_of};
use case_inputs::{Case, code_with, place_of, table_of};
use context_check::Overrides;
use fixed_num::{Arith, Num};
use lookup_table::{Part, Table};
use profile_code::{
    Code, Fault, Scratch, WayValues, global_value, listing, run_global, run_node, run_way,
};
use std::alloc::{AllocError, Global};

/// The calls on code. The words are a table and a profile, and then tag numbers for the first
/// three, and overrides for the others, of the last behind a name.
pub(crate) const CALLS: [&str; 7] = [
    "way",
    "node",
    "second_way",
    "listing",
    "listing_lines",
    "global",
    "global_value",
];

/// The answer to a case on code.
pub(crate) fn answer(alloc: Global, case: &Case) -> Result<String, AllocError> {
    match table_of(alloc, case.word(1)) {
        Some(table) => of_table(alloc, case, &table),
        None => String::from_str(alloc, OUTSIDE),
    }
}

/// The overrides of a case: from a place on that is said by its call.
fn overrides_of(alloc: Global, case: &Case) -> Result<Overrides, AllocError> {
    match place_of(&CALLS, case.word(0)) {
        3 | 4 | 5 => overrides_from(alloc, case, 3),
        6 => overrides_from(alloc, case, 4),
        _ => Ok(Overrides::new(alloc)),
    }
}

/// The answer under a table.
fn of_table(alloc: Global, case: &Case, table: &Table) -> Result<String, AllocError> {
    let overrides = overrides_of(alloc, case)?;
    of_overrides(alloc, case, table, &overrides)
}

/// The answer under a table and overrides.
fn of_overrides(
    alloc: Global,
    case: &Case,
    table: &Table,
    overrides: &Overrides,
) -> Result<String, AllocError> {
    match code_with(alloc, table, case.word(2), overrides) {
        Some(code) => of_code(alloc, case, table, &code),
        None => String::from_str(alloc, OUTSIDE),
    }
}

/// The answer on code.
fn of_code(alloc: Global, case: &Case, table: &Table, code: &Code) -> Result<String, AllocError>
    requires fits { HasTags code.now table.now }
{
    let mut scratch = Scratch::new(alloc, code)?;
    of_scratch(alloc, case, table, code, &mut scratch)
}

/// The answer on code with a scratch for it.
fn of_scratch(
    alloc: Global,
    case: &Case,
    table: &Table,
    code: &Code,
    scratch: &mut Scratch,
) -> Result<String, AllocError>
    requires made { IsScratchOf code.now scratch.old }
    requires fits { HasTags code.now table.now }
{
    match place_of(&CALLS, case.word(0)) {
        0 => way(alloc, case, table, code, scratch),
        1 => node(alloc, case, table, code, scratch),
        2 => second_way(alloc, case, table, code, scratch),
        3 => listed(alloc, code),
        4 => listed_lines(alloc, code),
        5 => global(alloc, code, scratch),
        6 => last_value(alloc, case, code, scratch),
        _ => String::from_str(alloc, NO_CALL),
    }
}

/// The listing of code.
fn listed(alloc: Global, code: &Code) -> Result<String, AllocError> {
    let text = listing(alloc, code)?;
    text_of(alloc, text.as_slice())
}

/// How many lines the listing of code has.
fn listed_lines(alloc: Global, code: &Code) -> Result<String, AllocError> {
    let text = listing(alloc, code)?;
    let lines = lines_of(text.as_slice());
    format!(in alloc; "{lines}")
}

/// How many line feeds a text has, and one.
fn lines_of(text: &[u8]) -> usize {
    let mut lines = 1usize;
    for byte in text {
        if *byte == b'\n' {
            lines = lines.saturating_add(1);
        }
    }
    lines
}

/// What the global section comes to.
fn global(alloc: Global, code: &Code, scratch: &mut Scratch) -> Result<String, AllocError>
    requires made { IsScratchOf code.now scratch.old }
{
    match run_global(code, scratch) {
        Ok(numbers) => told(alloc, &numbers),
        Err(fault) => told_fault(alloc, fault),
    }
}

/// The value that the global section gives a name last.
fn last_value(
    alloc: Global,
    case: &Case,
    code: &Code,
    scratch: &mut Scratch,
) -> Result<String, AllocError>
    requires made { IsScratchOf code.now scratch.old }
{
    if let Err(fault) = run_global(code, scratch) {
        return told_fault(alloc, fault);
    }
    match global_value(code, scratch, case.word(3)) {
        Some(number) => format!(in alloc; "{}", number.millionths()),
        None => String::from_str(alloc, "none"),
    }
}

/// What a way comes to.
fn way(
    alloc: Global,
    case: &Case,
    table: &Table,
    code: &Code,
    scratch: &mut Scratch,
) -> Result<String, AllocError>
    requires made { IsScratchOf code.now scratch.old }
    requires fits { HasTags code.now table.now }
{
    match run_global(code, scratch) {
        Ok(_) => run_on(alloc, case, table, code, scratch),
        Err(fault) => told_fault(alloc, fault),
    }
}

/// What a way comes to after a run on a way without tags, whatever that comes to.
fn second_way(
    alloc: Global,
    case: &Case,
    table: &Table,
    code: &Code,
    scratch: &mut Scratch,
) -> Result<String, AllocError>
    requires made { IsScratchOf code.now scratch.old }
    requires fits { HasTags code.now table.now }
{
    let zeros = vec![in alloc; 0u16; table.tags(Part::Way) as usize]?;
    if let Err(fault) = run_global(code, scratch) {
        return told_fault(alloc, fault);
    }
    let _ = run_way(code, zeros.as_slice(), scratch);
    run_on(alloc, case, table, code, scratch)
}

/// What the way of these tag numbers comes to, after the global section has run.
fn run_on(
    alloc: Global,
    case: &Case,
    table: &Table,
    code: &Code,
    scratch: &mut Scratch,
) -> Result<String, AllocError>
    requires held { HoldsGlobals code.now scratch.old }
    requires fits { HasTags code.now table.now }
{
    let numbers = numbers_from(alloc, case, 3)?;
    if numbers.len() != table.tags(Part::Way) as usize {
        return String::from_str(alloc, OUTSIDE);
    }
    match run_way(code, numbers.as_slice(), scratch) {
        Ok(values) => told(alloc, &numbers_of(values)),
        Err(fault) => told_fault(alloc, fault),
    }
}

/// What a node comes to.
fn node(
    alloc: Global,
    case: &Case,
    table: &Table,
    code: &Code,
    scratch: &mut Scratch,
) -> Result<String, AllocError>
    requires made { IsScratchOf code.now scratch.old }
    requires fits { HasTags code.now table.now }
{
    let numbers = numbers_from(alloc, case, 3)?;
    if numbers.len() != table.tags(Part::Node) as usize {
        return String::from_str(alloc, OUTSIDE);
    }
    if let Err(fault) = run_global(code, scratch) {
        return told_fault(alloc, fault);
    }
    match run_node(code, numbers.as_slice(), scratch) {
        Ok(cost) => format!(in alloc; "{}", cost.millionths()),
        Err(fault) => told_fault(alloc, fault),
    }
}

/// The values of a way in order.
fn numbers_of(way: WayValues) -> [Num; 7] {
    [
        way.costfactor,
        way.turncost,
        way.initialcost,
        way.initialclassifier,
        way.nodeaccessgranted,
        way.uphillcostfactor,
        way.downhillcostfactor,
    ]
}

/// The millionths of seven numbers.
fn told(alloc: Global, numbers: &[Num; 7]) -> Result<String, AllocError> {
    let mut text = String::new(alloc);
    tell(&mut text, numbers)?;
    Ok(text)
}

/// Writes the millionths of seven numbers.
fn tell(text: &mut String, numbers: &[Num; 7]) -> Result<(), AllocError> {
    for number in numbers {
        if !text.is_empty() {
            text.push(' ')?;
        }
        write!(text, "{}", number.millionths())?;
    }
    Ok(())
}

/// What is said of a fault.
fn told_fault(alloc: Global, fault: Fault) -> Result<String, AllocError> {
    match fault.kind {
        Arith::DivZero => format!(in alloc; "zero divides in assignment {}", fault.variable),
        Arith::TooLarge => format!(in alloc; "too large in assignment {}", fault.variable),
    }
}

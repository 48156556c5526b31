//! Runs tables of cases on the public calls of the ground, of the profile language, of prices, of
//! searches and of hierarchies.
#![tactic(auto)]

mod buffers;
mod checks;
mod codes;
mod grids;
mod heights;
mod hubs;
mod inputs;
mod json;
mod line;
mod lists;
mod numbers;
mod outside;
mod places;
mod prices;
mod searches;
mod sums;
mod tables;
mod texts;
mod toll;
mod trees;
mod values;

use crate::heights::Ground;
use crate::texts::NO_CALL;
use case_inputs::{Case, Report, Table, place_of};
use std::alloc::{AllocError, Global};
use std::io;

/// The calls of each part.
const PARTS: [&[&str]; 17] = [
    &numbers::CALLS,
    &places::CALLS,
    &buffers::CALLS,
    &heights::CALLS,
    &tables::CALLS,
    &json::CALLS,
    &grids::CALLS,
    &lists::CALLS,
    &outside::CALLS,
    &hubs::CALLS,
    &trees::CALLS,
    &values::CALLS,
    &checks::CALLS,
    &codes::CALLS,
    &prices::CALLS,
    &searches::CALLS,
    &sums::CALLS,
];

fn main(rt: HostRuntime) -> io::Result<()> {
    let mut table = Table::with_samples(rt.alloc())?;
    let mut ground = Ground::new(rt.alloc());
    let mut report = Report::new();
    for line in rt.lines(rt.alloc()) {
        if let Some(case) = table.take(line?.as_str())? {
            if let Some(told) = differs(rt.alloc(), &case, &mut ground, &mut report)? {
                println!(rt; "{told}")?;
            }
        }
    }
    println!(rt; "{} cases, {} differ", report.tried, report.differ)
}

/// The line that is told of a case if its answer isn't the one that is wanted.
fn differs(
    alloc: Global,
    case: &Case,
    ground: &mut Ground,
    report: &mut Report,
) -> Result<Option<String>, AllocError> {
    let answer = answer(alloc, case, ground)?;
    report.compare(alloc, case, answer.as_bytes())
}

/// The first part that has a call; how many parts there are where none has.
fn part_of(call: &[u8]) -> usize {
    for (part, calls) in PARTS.iter().enumerate() {
        if place_of(calls, call) < calls.len() {
            return part;
        }
    }
    PARTS.len()
}

/// The answer to a case, by the part of the program that has its call.
fn answer(alloc: Global, case: &Case, ground: &mut Ground) -> Result<String, AllocError> {
    match part_of(case.word(0)) {
        0 => numbers::answer(alloc, case),
        1 => places::answer(alloc, case),
        2 => buffers::answer(alloc, case),
        3 => heights::answer(alloc, case, ground),
        4 => tables::answer(alloc, case),
        5 => json::answer(alloc, case),
        6 => grids::answer(alloc, case),
        7 => lists::answer(alloc, case),
        8 => outside::answer(alloc, case),
        9 => hubs::answer(alloc, case),
        10 => trees::answer(alloc, case),
        11 => values::answer(alloc, case),
        12 => checks::answer(alloc, case),
        13 => codes::answer(alloc, case),
        14 => prices::answer(alloc, case),
        15 => searches::answer(alloc, case),
        16 => sums::answer(alloc, case),
        _ => String::from_str(alloc, NO_CALL),
    }
}

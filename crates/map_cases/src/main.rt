//! Runs tables of cases on maps: texts of maps and what comes of them, the nearest nodes of
//! waypoints, least sums, tracks, walks of least rank, profiles bound to maps, certificates, and
//! costs between nodes. Then it runs each part that is timed at a small size; with words it runs
//! the one that they say, and nothing else.
#![tactic(auto)]

mod answers;
mod bounds;
mod certificates;
mod class;
mod given;
mod map;
mod near;
mod orders;
mod reaches;
mod space;
mod sums;
mod timed;
mod track;

use case_inputs::{Report, Table};
use std::{env, io};

/// Runs the table of the standard input, and prints each case that differs and how many there are.
fn run_table(rt: &HostRuntime) -> io::Result<()> {
    let mut table = Table::with_samples(rt.alloc())?;
    let mut report = Report::new();
    for line in rt.lines(rt.alloc()) {
        if let Some(case) = table.take(line?.as_str())? {
            let answer = answers::answer(rt.alloc(), &case)?;
            if let Some(told) = report.compare(rt.alloc(), &case, answer.as_bytes())? {
                println!(rt; "{told}")?;
            }
        }
    }
    println!(rt; "{} cases, {} differ", report.tried, report.differ)
}

/// Runs what the words behind the program's name say, or the table and a small size of each part.
fn run(rt: &HostRuntime, words: &[String]) -> io::Result<()> {
    match words {
        [_, name, others @ ..] => timed::run_named(rt, name.as_str(), others),
        _ => {
            run_table(rt)?;
            timed::run_each(rt)
        }
    }
}

fn main(rt: HostRuntime) -> io::Result<()> {
    let words: Vec<String> = env::args(&rt)?.collect(rt.alloc())?;
    run(&rt, words.as_slice())
}

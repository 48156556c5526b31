//! Runs a profile's code on ways, one after the other, and prints what their cost factors sum up
//! to.

ghost use Rattle.std.specs.Prelude.{◌≡◌};
ghost use Rattle.profile_code.specs.Flat.{tags_of};
ghost use Rattle.profile_code.specs.Scratch.{HoldsGlobals};

use crate::timed::trek::trek_code;
use crate::timed::ways::{WAYS, ways};
use crate::timed::words::number_at;
use case_inputs::place_of;
use lookup_table::Part;
use profile_code::{Code, Fault, Scratch, listing, run_global, run_way};
use std::io;

/// What is printed instead of a sum, where the second word asks for it.
const OTHERS: [&str; 2] = ["vectors", "listing"];

/// The sum of the cost factors of so many ways, in millionths.
fn sum_of(code: &Code, scratch: &mut Scratch, count: u64) -> Result<u64, Fault>
    requires held { HoldsGlobals code.now scratch.old }
    requires fits { tags_of code.now Part.Way ≡ 6 }
{
    let ways = ways();
    let mut sum = 0u64;
    'ways: for number in 0..count {
        let way = &ways[number as usize % WAYS];
        let values = run_way(code, way, scratch)?;
        sum = sum.wrapping_add(values.costfactor.millionths().unsigned_abs());
    }
    Ok(sum)
}

/// Runs the code on so many ways in a scratch that is its own, and prints the sum.
fn print_sum_in(rt: &HostRuntime, code: &Code, scratch: &mut Scratch, count: u64) -> io::Result<()>
    requires held { HoldsGlobals code.now scratch.old }
    requires fits { tags_of code.now Part.Way ≡ 6 }
{
    match sum_of(code, scratch, count) {
        Ok(sum) => println!(rt; "{count} evaluations, cost factors of {sum} millionths"),
        Err(_) => println!(rt; "a fault in the way section"),
    }
}

/// Runs the code on so many ways, and prints the sum.
fn print_sum(rt: &HostRuntime, code: &Code, count: u64) -> io::Result<()>
    requires fits { tags_of code.now Part.Way ≡ 6 }
{
    let mut scratch = Scratch::new(rt.alloc(), code)?;
    match run_global(code, &mut scratch) {
        Ok(_) => print_sum_in(rt, code, &mut scratch, count),
        Err(_) => println!(rt; "a fault in the global section"),
    }
}

/// Prints the tag numbers of each way.
fn print_ways(rt: &HostRuntime) -> io::Result<()> {
    for [direction, road, oneway, bicycle, junction, route] in ways() {
        println!(rt; "{direction} {road} {oneway} {bicycle} {junction} {route}")?;
    }
    Ok(())
}

/// Prints the code.
fn print_code(rt: &HostRuntime, code: &Code) -> io::Result<()> {
    let text = listing(rt.alloc(), code)?;
    match str::from_utf8(&text) {
        Ok(text) => print!(rt; "{text}"),
        Err(_) => Ok(()),
    }
}

/// Which of the others the second word asks for; their number where none.
fn other_of(words: &[String]) -> usize {
    match words.get(1) {
        Some(word) => place_of(&OTHERS, word.as_str().as_bytes()),
        None => OTHERS.len(),
    }
}

/// Prints of the code what the words ask for.
fn print_asked(rt: &HostRuntime, code: &Code, words: &[String]) -> io::Result<()>
    requires fits { tags_of code.now Part.Way ≡ 6 }
{
    match other_of(words) {
        0 => print_ways(rt),
        1 => print_code(rt, code),
        _ => print_sum(rt, code, number_at(words, 0, WAYS as u64)),
    }
}

/// Runs the code of the profile for trekking as the words ask.
pub(crate) fn run(rt: &HostRuntime, words: &[String]) -> io::Result<()> {
    match trek_code(rt.alloc()) {
        Some(code) => print_asked(rt, &code, words),
        None => println!(rt; "no code"),
    }
}

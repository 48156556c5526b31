//! What command lines come to over files and an output in memory.

use crate::run::ended::append_in_brackets;
use crate::run::world::World;
use case_inputs::Case;
use item_list::{append_bytes, append_named, append_number};
use run_files::Status;
use std::alloc::{AllocError, Global};

/// Appends what the top call comes to on the words of a case from a place on: number and line of
/// the status, the output, and how often files were opened.
pub(crate) fn append_run(
    told: &mut Vec<u8>,
    world: &World,
    case: &Case,
    first: usize,
) -> Result<(), AllocError> {
    let ended = world.ended(case, first)?;
    ended.append_all(told)
}

/// Appends what the top call comes to where only what a reply costs is compared: number and line of
/// the status, and the cost and the rank that the output tells.
pub(crate) fn append_cost(
    told: &mut Vec<u8>,
    world: &World,
    case: &Case,
) -> Result<(), AllocError> {
    let ended = world.ended(case, 1)?;
    ended.append_status(told)?;
    if ended.written().is_empty() {
        return Ok(());
    }
    append_sums(told, ended.written())
}

/// Appends the cost and the rank that a reply tells, in either of its forms.
pub(crate) fn append_sums(told: &mut Vec<u8>, reply: &[u8]) -> Result<(), AllocError> {
    let reply = str::from_utf8(reply).unwrap_or("");
    let (cost, rank, end) = if reply.starts_with('{') {
        ("\"cost\":\"", "\"rank\":\"", "\"")
    } else {
        ("\ncost\t", "\nrank\t", "\n")
    };
    append_bytes(told, b" cost ")?;
    append_bytes(told, between(reply, cost, end).as_bytes())?;
    append_bytes(told, b" rank ")?;
    append_bytes(told, between(reply, rank, end).as_bytes())
}

/// What stands between the first of one mark and the next of another; nothing where they aren't
/// there.
fn between<'a>(text: &'a str, mark: &str, end: &str) -> &'a str {
    let Some((_, rest)) = text.split_once(mark) else {
        return "";
    };
    match rest.split_once(end) {
        Some((between, _)) => between,
        None => "",
    }
}

/// Appends what the top call comes to where it writes much: number and line of the status, how many
/// bytes are written, their first four and their sum.
pub(crate) fn append_size(
    told: &mut Vec<u8>,
    world: &World,
    case: &Case,
) -> Result<(), AllocError> {
    let ended = world.ended(case, 1)?;
    ended.append_status(told)?;
    append_size_of(told, ended.written())
}

/// Appends how many bytes these are, their first four and their sum.
fn append_size_of(told: &mut Vec<u8>, bytes: &[u8]) -> Result<(), AllocError> {
    append_named(told, b" ", bytes.len() as u64)?;
    for place in 0..4 {
        append_named(told, b" ", u64::from(byte_at(bytes, place)))?;
    }
    append_named(told, b" ", sum_of(bytes))
}

/// The byte at a place, 0 where there is none.
fn byte_at(bytes: &[u8], place: usize) -> u8 {
    match bytes.get(place) {
        Some(byte) => *byte,
        None => 0,
    }
}

/// The sum of bytes.
fn sum_of(bytes: &[u8]) -> u64 {
    let mut sum: u64 = 0;
    for byte in bytes {
        sum = sum.saturating_add(u64::from(*byte));
    }
    sum
}

/// Appends what a command line comes to: the exit status, what is told beside the output, and the
/// output.
pub(crate) fn append_edge(
    told: &mut Vec<u8>,
    world: &World,
    case: &Case,
) -> Result<(), AllocError> {
    let mut over = world.outside()?;
    let exit = world.exit(case, &mut over)?;
    append_number(told, u64::from(exit))?;
    append_in_brackets(told, over.err.sink().bytes())?;
    append_in_brackets(told, over.out.bytes())
}

/// Appends what a faulty command line comes to: the exit status, and the second line that is told,
/// which says of a word why it is at fault.
pub(crate) fn append_fault(
    told: &mut Vec<u8>,
    world: &World,
    case: &Case,
) -> Result<(), AllocError> {
    let mut over = world.outside()?;
    let exit = world.exit(case, &mut over)?;
    append_number(told, u64::from(exit))?;
    append_bytes(told, b" ")?;
    append_bytes(told, second_line(over.err.sink().bytes()).as_bytes())
}

/// The second line of a text; nothing where there is none.
fn second_line(text: &[u8]) -> &str {
    let text = str::from_utf8(text).unwrap_or("");
    between(text, "\n", "\n")
}

/// Appends the number and the line of want of memory, which no command line is sure to meet.
pub(crate) fn append_no_memory(told: &mut Vec<u8>, alloc: Global) -> Result<(), AllocError> {
    append_number(told, u64::from(Status::NoMemory.number()))?;
    let line = Status::NoMemory.line(alloc)?;
    append_in_brackets(told, line.as_slice())
}

//! What a command line comes to where one call after the other fails.

use crate::run::answers::append_run;
use crate::run::ended::Ended;
use crate::run::peers::{Told, append_served};
use crate::run::world::World;
use case_inputs::Case;
use item_list::{append_bytes, append_named, append_number};
use std::alloc::{AllocError, Global};

/// The most calls that fail in one case.
const MOST_CALLS: u64 = 10_000;

/// The answer that came last, and how often in turn it came.
struct Last {
    answer: Vec<u8>,
    times: u64,
}

impl Drop for Last {
    fn drop(self) {
        let Last {
            answer: _,
            times: _,
        } = self;
    }
}

impl Last {
    /// None came.
    fn new(alloc: Global) -> Last {
        Last {
            answer: Vec::new(alloc),
            times: 0,
        }
    }

    /// Takes the next answer, and tells the last one where it is another.
    fn take(&mut self, told: &mut Vec<u8>, answer: Vec<u8>) -> Result<(), AllocError> {
        if answer.as_slice() == self.answer.as_slice() {
            self.times = self.times.saturating_add(1);
            return Ok(());
        }
        self.append(told)?;
        self.answer = answer;
        self.times = 1;
        Ok(())
    }

    /// Appends how often in turn the answer came, if it did, and the answer.
    fn append(&self, told: &mut Vec<u8>) -> Result<(), AllocError> {
        if self.times == 0 {
            return Ok(());
        }
        append_number(told, self.times)?;
        append_bytes(told, b" times ")?;
        append_bytes(told, self.answer.as_slice())?;
        append_bytes(told, b"\n")
    }
}

/// Appends what the top call comes to where call 0 of the files fails, then where call 1 does, and
/// so on for so many calls: a line for each answer of `run`, and how often in turn it came.
pub(crate) fn append_reads(
    told: &mut Vec<u8>,
    world: &mut World,
    case: &Case,
) -> Result<(), AllocError> {
    let mut last = Last::new(world.alloc());
    for failing in 0..case.count(1).min(MOST_CALLS) {
        world.fail_read(failing);
        last.take(told, run_of(world, case)?)?;
    }
    world.fail_never();
    last.append(told)
}

/// The answer of `run` to the words of a case behind its count.
fn run_of(world: &World, case: &Case) -> Result<Vec<u8>, AllocError> {
    let mut answer = Vec::new(world.alloc());
    append_run(&mut answer, world, case, 2)?;
    Ok(answer)
}

/// Appends what the top call comes to where call 0 of the hub fails, then where call 1 does, and so
/// on for so many calls: a line for each answer, and how often in turn it came.
pub(crate) fn append_calls(
    told: &mut Vec<u8>,
    world: &mut World,
    case: &Case,
) -> Result<(), AllocError> {
    let mut last = Last::new(world.alloc());
    for failing in 0..case.count(1).min(MOST_CALLS) {
        world.fail_call(failing);
        last.take(told, served_of(world, case)?)?;
    }
    world.fail_never();
    last.append(told)
}

/// What is served by the words of a case behind its count.
fn served_of(world: &World, case: &Case) -> Result<Vec<u8>, AllocError> {
    let mut answer = Vec::new(world.alloc());
    append_served(&mut answer, world, case, 2, Told::Count)?;
    Ok(answer)
}

/// Appends what the top call comes to where call 0 of the output fails, then where call 1 does, and
/// so on for so many calls: a line for each number and line of a status, with how many bytes were
/// written each time, which have to be a front of what is written where no call fails.
pub(crate) fn append_writes(
    told: &mut Vec<u8>,
    world: &mut World,
    case: &Case,
) -> Result<(), AllocError> {
    let whole = world.ended(case, 2)?;
    let mut last = Vec::new(world.alloc());
    for failing in 0..case.count(1).min(MOST_CALLS) {
        world.fail_write(failing);
        append_write(told, &mut last, &whole, world, case)?;
    }
    world.fail_never();
    Ok(())
}

/// Appends the same for one call, behind the status that came last.
fn append_write(
    told: &mut Vec<u8>,
    last: &mut Vec<u8>,
    whole: &Ended,
    world: &World,
    case: &Case,
) -> Result<(), AllocError> {
    let ended = world.ended(case, 2)?;
    append_new_status(told, last, world.alloc(), &ended)?;
    append_front(told, ended.written(), whole.written())
}

/// Appends a status on a line of its own, where it isn't the last one.
fn append_new_status(
    told: &mut Vec<u8>,
    last: &mut Vec<u8>,
    alloc: Global,
    ended: &Ended,
) -> Result<(), AllocError> {
    let mut status = Vec::new(alloc);
    ended.append_status(&mut status)?;
    if status.as_slice() == last.as_slice() {
        return Ok(());
    }
    if !told.is_empty() {
        append_bytes(told, b"\n")?;
    }
    append_bytes(told, status.as_slice())?;
    *last = status;
    Ok(())
}

/// Appends how many bytes were written, if they are a front of the whole output.
fn append_front(told: &mut Vec<u8>, written: &[u8], whole: &[u8]) -> Result<(), AllocError> {
    if whole.starts_with(written) {
        append_named(told, b" ", written.len() as u64)
    } else {
        append_bytes(told, b" (no front)")
    }
}

//! What peers do, as the script of a hub in memory, what each gets, and where the hub listened.

use crate::run::answers::append_sums;
use crate::run::ended::append_in_brackets;
use crate::run::world::World;
use case_inputs::{Case, place_of};
use edge_memory::{MemHub, Script};
use item_list::{Items, append_bytes, append_named, append_number, bytes_of};
use std::alloc::{AllocError, Global};

/// The most connections that one row opens.
const MOST_OPENINGS: u64 = 1_000;

/// The calls that add what a peer does.
pub(crate) const DEEDS: [&str; 8] = [
    "opened", "bytes", "slowly", "each", "ended", "lost", "await", "quiet",
];

/// A copy of a script.
pub(crate) fn copy_of(alloc: Global, script: &[Script]) -> Result<Vec<Script>, AllocError> {
    let mut copy = Vec::new(alloc);
    for entry in script {
        copy.push(entry_like(alloc, entry)?)?;
    }
    Ok(copy)
}

/// A copy of an entry.
fn entry_like(alloc: Global, entry: &Script) -> Result<Script, AllocError> {
    match entry {
        Script::Opened { id } => Ok(Script::Opened { id: *id }),
        Script::Bytes { id, bytes } => bytes_from(alloc, *id, bytes.as_slice()),
        Script::Ended { id } => Ok(Script::Ended { id: *id }),
        Script::Lost { id } => Ok(Script::Lost { id: *id }),
        Script::Quiet => Ok(Script::Quiet),
        Script::AwaitClosed { id, most } => Ok(Script::AwaitClosed {
            id: *id,
            most: *most,
        }),
    }
}

/// The entry of bytes that come from a peer.
fn bytes_from(alloc: Global, id: u64, bytes: &[u8]) -> Result<Script, AllocError> {
    let bytes = Items::from_vec(bytes_of(alloc, bytes)?);
    Ok(Script::Bytes { id, bytes })
}

/// Adds the entries of a row: what a peer does.
pub(crate) fn add_deed(
    alloc: Global,
    script: &mut Vec<Script>,
    case: &Case,
) -> Result<(), AllocError> {
    let id = case.count(1);
    match place_of(&DEEDS, case.word(0)) {
        0 => add_openings(script, id, case.count(2)),
        1 => add_bytes(alloc, script, id, case.word(2)),
        2 => add_slowly(alloc, script, id, case.word(2)),
        3 => add_requests(alloc, script, id, case),
        4 => add(script, Script::Ended { id }),
        5 => add(script, Script::Lost { id }),
        6 => add_wait(script, id, case.count(2)),
        _ => add(script, Script::Quiet),
    }
}

/// Adds an entry.
fn add(script: &mut Vec<Script>, entry: Script) -> Result<(), AllocError> {
    script.push(entry)?;
    Ok(())
}

/// Adds that bytes come.
fn add_bytes(
    alloc: Global,
    script: &mut Vec<Script>,
    id: u64,
    bytes: &[u8],
) -> Result<(), AllocError> {
    let entry = bytes_from(alloc, id, bytes)?;
    add(script, entry)
}

/// Adds that a connection is awaited until it is closed, for so many calls.
fn add_wait(script: &mut Vec<Script>, id: u64, most: u64) -> Result<(), AllocError> {
    let most = most.min(1_000_000) as u32;
    add(script, Script::AwaitClosed { id, most })
}

/// Adds that bytes come one at a time.
fn add_slowly(
    alloc: Global,
    script: &mut Vec<Script>,
    id: u64,
    bytes: &[u8],
) -> Result<(), AllocError> {
    for byte in bytes {
        add_bytes(alloc, script, id, &[*byte])?;
    }
    Ok(())
}

/// Adds that so many connections open, one after the other.
fn add_openings(script: &mut Vec<Script>, first: u64, count: u64) -> Result<(), AllocError> {
    for more in 0..count.min(MOST_OPENINGS) {
        let id = first.saturating_add(more);
        add(script, Script::Opened { id })?;
    }
    Ok(())
}

/// Adds so many connections, one after the other: each opens, sends bytes, and is awaited.
fn add_requests(
    alloc: Global,
    script: &mut Vec<Script>,
    first: u64,
    case: &Case,
) -> Result<(), AllocError> {
    for more in 0..case.count(2).min(MOST_OPENINGS) {
        let id = first.saturating_add(more);
        add(script, Script::Opened { id })?;
        add_bytes(alloc, script, id, case.word(3))?;
        add_wait(script, id, 50)?;
    }
    Ok(())
}

/// What is told of a connection: the bytes that were sent to it, how many, or the cost that they
/// tell.
#[derive(Clone, Copy)]
pub(crate) enum Told {
    Bytes,
    Count,
    Cost,
}

/// Appends what the top call comes to over the hub: number and line of the status, what was
/// written, and a line for each connection of the case's word before the words.
pub(crate) fn append_served(
    told: &mut Vec<u8>,
    world: &World,
    case: &Case,
    first: usize,
    form: Told,
) -> Result<(), AllocError> {
    match world.hub()? {
        Some(hub) => append_served_by(told, world, case, first, form, hub),
        None => append_bytes(told, b"(outside)"),
    }
}

/// The same over a hub.
fn append_served_by(
    told: &mut Vec<u8>,
    world: &World,
    case: &Case,
    first: usize,
    form: Told,
    hub: MemHub,
) -> Result<(), AllocError> {
    let mut hub = hub;
    let ended = world.ended_over(case, first.saturating_add(1), &mut hub)?;
    ended.append_output(told)?;
    append_peers(told, world.alloc(), &hub, case.text(first), form)
}

/// Appends what the top call comes to over the hub: number and line of the status, what was
/// written, and the addresses at which the hub listened, each with an end of line.
pub(crate) fn append_listened(
    told: &mut Vec<u8>,
    world: &World,
    case: &Case,
) -> Result<(), AllocError> {
    match world.hub()? {
        Some(hub) => append_listened_by(told, world, case, hub),
        None => append_bytes(told, b"(outside)"),
    }
}

/// The same over a hub.
fn append_listened_by(
    told: &mut Vec<u8>,
    world: &World,
    case: &Case,
    hub: MemHub,
) -> Result<(), AllocError> {
    let mut hub = hub;
    let ended = world.ended_over(case, 1, &mut hub)?;
    ended.append_output(told)?;
    let listened = hub.listened(world.alloc())?;
    append_in_brackets(told, listened.as_slice())
}

/// Appends a line for each of these connections.
fn append_peers(
    told: &mut Vec<u8>,
    alloc: Global,
    hub: &MemHub,
    ids: &str,
    form: Told,
) -> Result<(), AllocError> {
    for id in ids.split(',') {
        append_bytes(told, b"\n")?;
        append_peer(told, alloc, hub, number_of(id), form)?;
    }
    Ok(())
}

/// Appends what is told of a connection.
fn append_peer(
    told: &mut Vec<u8>,
    alloc: Global,
    hub: &MemHub,
    id: u64,
    form: Told,
) -> Result<(), AllocError> {
    let sent = hub.bytes_to(alloc, id)?;
    append_number(told, id)?;
    match form {
        Told::Bytes => {
            append_closed(told, hub.closed(id))?;
            append_in_brackets(told, sent.as_slice())
        }
        Told::Count => {
            append_closed(told, hub.closed(id))?;
            append_named(told, b" ", sent.len() as u64)
        }
        Told::Cost => append_sums(told, sent.as_slice()),
    }
}

/// Appends whether a connection was closed.
fn append_closed(told: &mut Vec<u8>, closed: bool) -> Result<(), AllocError> {
    append_bytes(told, if closed { b" closed" } else { b" open" })
}

/// The number of digits, 0 where there are none.
fn number_of(text: &str) -> u64 {
    let mut number: u64 = 0;
    for byte in text.as_bytes() {
        if byte.is_ascii_digit() {
            number = number
                .saturating_mul(10)
                .saturating_add(u64::from(*byte - b'0'));
        }
    }
    number
}

//! Cases on a hub in memory.

use crate::texts::{OUTSIDE, shown};
use case_inputs::{Case, place_of};
use edge_io::{Event, Failed, Hub};
use edge_memory::{MemHub, Script, can_play};
use item_list::{Items, bytes_of};
use std::alloc::{AllocError, Global};
use std::collections::VecDeque;

/// The one call on a hub.
pub(crate) const CALLS: [&str; 1] = ["hub"];

/// What a hub in memory tells: its room, the most of one call, the failing call, its script and the
/// calls on it. At the end stands whether connection 1 was closed, the bytes sent to it, and where
/// the hub listened.
pub(crate) fn answer(alloc: Global, case: &Case) -> Result<String, AllocError> {
    let room = case.count(1).min(1000) as usize;
    let piece = case.count(2).min(1000) as usize;
    let script = script_of(alloc, case.text(4))?;
    if piece == 0 || !can_play(script.as_slice()) {
        return String::from_str(alloc, OUTSIDE);
    }
    let mut hub = MemHub::new(alloc, script, room, piece, vec![in alloc; case.count(3)]?)?;
    played(alloc, case, &mut hub)
}

/// What a hub tells of the calls of a case.
fn played(alloc: Global, case: &Case, hub: &mut MemHub) -> Result<String, AllocError> {
    let mut told = String::new(alloc);
    for call in case.text(5).split(',') {
        play(alloc, &mut told, hub, call.as_bytes())?;
    }
    tell_end(alloc, &mut told, hub)?;
    Ok(told)
}

/// Writes what one call comes to.
fn play(alloc: Global, told: &mut String, hub: &mut MemHub, call: &[u8]) -> Result<(), AllocError> {
    let text = called(alloc, hub, call)?;
    write!(told, "{text} ")
}

/// Writes whether connection 1 was closed, the bytes sent to it, and where the hub listened.
fn tell_end(alloc: Global, told: &mut String, hub: &MemHub) -> Result<(), AllocError> {
    let sent = hub.bytes_to(alloc, 1)?;
    let closed = if hub.closed(1) { "closed" } else { "open" };
    let listened = hub.listened(alloc)?;
    write!(told, "{closed}:{}", shown(sent.as_slice()))?;
    write!(told, "{}", shown(listened.as_slice()))
}

/// The script of a text of entries: a letter, the connection's digit, and the rest.
fn script_of(alloc: Global, text: &str) -> Result<Vec<Script>, AllocError> {
    let mut script = Vec::new(alloc);
    for word in text.split(',') {
        script.push(entry_of(alloc, word.as_bytes())?)?;
    }
    Ok(script)
}

/// The digit at a place of a word; none is 0.
fn digit(word: &[u8], place: usize) -> u8 {
    match word.get(place) {
        Some(byte) if byte.is_ascii_digit() => *byte - b'0',
        _ => 0,
    }
}

/// What follows the first two bytes of a word.
fn rest_of(word: &[u8]) -> &[u8] {
    if word.len() < 2 { &[] } else { &word[2..] }
}

/// The first byte of a word, if it has one.
fn letter_of(word: &[u8]) -> &[u8] {
    if word.is_empty() { &[] } else { &word[..1] }
}

/// The entry of a word.
fn entry_of(alloc: Global, word: &[u8]) -> Result<Script, AllocError> {
    let id = digit(word, 1) as u64;
    match place_of(&["o", "b", "e", "l", "w"], letter_of(word)) {
        0 => Ok(Script::Opened { id }),
        1 => bytes_entry(alloc, id, rest_of(word)),
        2 => Ok(Script::Ended { id }),
        3 => Ok(Script::Lost { id }),
        4 => Ok(Script::AwaitClosed {
            id,
            most: digit(word, 2) as u32,
        }),
        _ => Ok(Script::Quiet),
    }
}

/// The entry that bytes come from a connection.
fn bytes_entry(alloc: Global, id: u64, bytes: &[u8]) -> Result<Script, AllocError> {
    let bytes = Items::from_vec(bytes_of(alloc, bytes)?);
    Ok(Script::Bytes { id, bytes })
}

/// What one call comes to: `n` with the length of the buffer, `s` and `c` with a connection, or an
/// opening, with the address behind its letter, which is `h` where an end of a peer is a loss.
fn called(alloc: Global, hub: &mut MemHub, word: &[u8]) -> Result<String, AllocError> {
    let id = digit(word, 1) as u64;
    match place_of(&["n", "s", "c", "h"], letter_of(word)) {
        0 => given(alloc, hub, digit(word, 1) as usize),
        1 => sent(alloc, hub, id, rest_of(word)),
        2 => closed(alloc, hub, id),
        3 => opened(alloc, hub, shown(address_of(word)), true),
        _ => opened(alloc, hub, shown(address_of(word)), false),
    }
}

/// How many bytes are sent.
fn sent(alloc: Global, hub: &mut MemHub, id: u64, bytes: &[u8]) -> Result<String, AllocError> {
    match hub.send(id, bytes) {
        Ok(n) => format!(in alloc; "{n}"),
        Err(Failed) => String::from_str(alloc, "broken"),
    }
}

/// A connection is closed.
fn closed(alloc: Global, hub: &mut MemHub, id: u64) -> Result<String, AllocError> {
    hub.close(id);
    String::from_str(alloc, "done")
}

/// What follows the first byte of a word.
fn address_of(word: &[u8]) -> &[u8] {
    if word.is_empty() { &[] } else { &word[1..] }
}

/// The hub is opened at an address, with an end of a peer as a loss or not.
fn opened(
    alloc: Global,
    hub: &mut MemHub,
    address: &str,
    hangup: bool,
) -> Result<String, AllocError> {
    match hub.open(address, hangup) {
        Ok(()) => String::from_str(alloc, "open"),
        Err(Failed) => String::from_str(alloc, "fault"),
    }
}

/// The next event, with a buffer of so many bytes, while nobody waits for an answer.
fn given(alloc: Global, hub: &mut MemHub, room: usize) -> Result<String, AllocError> {
    let mut buf = [0u8; 9];
    if room == 0 || room > 9 {
        return String::from_str(alloc, OUTSIDE);
    }
    let nobody = VecDeque::new(alloc);
    let event = hub.next(&mut buf[..room], &nobody, false);
    told_event(alloc, event, &buf)
}

/// What is told of an event, whose bytes stand at the front of the buffer.
fn told_event(
    alloc: Global,
    event: Result<Event, Failed>,
    buf: &[u8; 9],
) -> Result<String, AllocError> {
    match event {
        Ok(Event::Opened { id }) => told_id(alloc, "o", id, ""),
        Ok(Event::Bytes { id, n }) => told_id(alloc, "b", id, shown(&buf[..n.min(9)])),
        Ok(Event::Ended { id }) => told_id(alloc, "e", id, ""),
        Ok(Event::Lost { id }) => told_id(alloc, "l", id, ""),
        Ok(Event::Quiet) => String::from_str(alloc, "q"),
        Ok(Event::Over) => String::from_str(alloc, "over"),
        Err(Failed) => String::from_str(alloc, "fault"),
    }
}

/// A letter, a connection, and bytes that came from it.
fn told_id(alloc: Global, letter: &str, id: u64, bytes: &str) -> Result<String, AllocError> {
    format!(in alloc; "{letter}{id}{bytes}")
}

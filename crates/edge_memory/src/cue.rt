//! What an entry of a script gives, and what is left of it then.

ghost use Rattle.std.specs.Prelude.{◌≡◌, ◌<◌, ◌≤◌, ◌==◌, length, take, drop};
ghost use Rattle.std.specs.List.{list_any};
ghost use Rattle.edge_memory.specs.Place.{left_from, IsPlace, IsUsedWithin, IsCue, IsBytesCue, IsWaitCue, IsPassingCue, IsShot, IsEventWithin, place_then, is_met as is_met_by};
ghost use Rattle.edge_memory.specs.Tape.{bytes_of, bytes_at, noted_bytes};
ghost use Rattle.edge_memory.specs.Script.{after_waits, told_as, IsPlayable};

use crate::script::Script;
use edge_io::Event;

/// What becomes of an entry that gave an event.
#[derive(Clone, Copy)]
pub enum Then {
    /// It stays, with so many of its bytes or calls used.
    Stays { used: usize },
    /// It is done, and the next one follows.
    Goes,
    /// The script is over.
    Ends,
}

/// An event, and what becomes of the entry that gave it.
#[derive(Clone, Copy)]
pub struct Cue {
    pub event: Event,
    pub after: Then,
}

/// An event after which the next entry follows.
fn passing(event: Event) -> Cue
    ensures value { IsPassingCue event result }
{
    Cue {
        event,
        after: Then::Goes,
    }
}

/// What a wait gives that isn't met.
fn waiting(used: usize, most: u32) -> Cue
    requires used { used ≤ most }
    ensures exact { IsWaitCue used most result }
{
    if used < most as usize {
        Cue {
            event: Event::Quiet,
            after: Then::Stays { used: used + 1 },
        }
    } else {
        Cue {
            event: Event::Over,
            after: Then::Ends,
        }
    }
}

/// Some next bytes of an entry, at most so many.
fn arriving(id: u64, bytes: &[u8], used: usize, most: usize) -> Cue
    requires used { used < length bytes.now }
    requires some { 1 ≤ most }
    ensures exact { IsBytesCue id bytes.now used most result }
{
    let left = bytes.len() - used;
    let n = left.min(most);
    let after = if n == left {
        Then::Goes
    } else {
        Then::Stays { used: used + n }
    };
    Cue {
        event: Event::Bytes { id, n },
        after,
    }
}

/// What an entry gives after so much of it was used: at most so many bytes.
pub fn cue_of(entry: &Script, used: usize, most: usize) -> Cue
    requires within { IsUsedWithin entry.now used }
    requires some { 1 ≤ most }
    ensures exact { IsCue entry.now used most result }
{
    match entry {
        Script::Opened { id } => passing(Event::Opened { id: *id }),
        Script::Bytes { id, bytes } => arriving(*id, bytes.as_slice(), used, most),
        Script::Ended { id } => passing(Event::Ended { id: *id }),
        Script::Lost { id } => passing(Event::Lost { id: *id }),
        Script::Quiet => passing(Event::Quiet),
        Script::AwaitClosed { id: _, most: calls } => waiting(used, *calls),
    }
}

/// Whether an entry is a wait for a connection that was closed.
fn is_met(entry: &Script, closed: &[u64]) -> bool
    ensures exact { result ≡ is_met_by (λ id. list_any (λ x. x == id) closed.now) entry.now }
{
    match entry {
        Script::AwaitClosed { id, most: _ } => closed.contains(id),
        _ => false,
    }
}

/// The place behind the waits for connections that were closed, and what of its entry was used.
pub fn behind_waits(script: &[Script], closed: &[u64], place: usize, used: usize) -> (usize, usize)
    requires playable { IsPlayable script.now }
    requires is_place { IsPlace script.now place used }
    ensures exact { left_from script.now result.0 result.1 ≡
        after_waits (λ id. list_any (λ x. x == id) closed.now) (left_from script.now place used) }
    ensures is_place { IsPlace script.now result.0 result.1 }
{
    let mut at = place;
    let mut spent = used;
    'waits: while at < script.len() && is_met(&script[at], closed) {
        at += 1;
        spent = 0;
    }
    (at, spent)
}

/// An event, and the place of the script after it, with what of its entry is used.
#[derive(Clone, Copy)]
pub struct Shot {
    pub event: Event,
    pub place: usize,
    pub used: usize,
}

/// What a script gives from a place on, in an event of at most so many bytes.
pub fn shot_at(script: &[Script], place: usize, used: usize, most: usize) -> Shot
    requires playable { IsPlayable script.now }
    requires is_place { IsPlace script.now place used }
    requires some { 1 ≤ most }
    ensures exact { IsShot script.now place used most result }
{
    if place >= script.len() {
        return Shot {
            event: Event::Over,
            place,
            used: 0,
        };
    }
    let cue = cue_of(&script[place], used, most);
    let (next, spent) = moved(cue.after, place, script.len());
    Shot {
        event: cue.event,
        place: next,
        used: spent,
    }
}

/// The place after an entry was played, and what of its entry is used.
fn moved(after: Then, place: usize, end: usize) -> (usize, usize)
    requires within { place < end }
    ensures exact { result ≡ place_then after place end }
{
    match after {
        Then::Stays { used } => (place, used),
        Then::Goes => (place + 1, 0),
        Then::Ends => (end, 0),
    }
}

/// What an event is told as: with `hangup` an end of a peer is the loss of its connection.
pub fn told_as(hangup: bool, event: Event) -> Event
    ensures exact { result ≡ told_as hangup event }
{
    match event {
        Event::Ended { id } if hangup => Event::Lost { id },
        _ => event,
    }
}

/// The bytes of an event, which stand in the script from there on.
pub fn bytes_in<'a>(script: &'a [Script], event: Event, place: usize, used: usize) -> &'a [u8]
    requires within { IsEventWithin event (drop used (bytes_at script.now place)) }
    ensures exact { result.now ≡ noted_bytes script.now event place used }
{
    match event {
        Event::Bytes { id: _, n } => some_bytes(script, place, used, n),
        _ => &[],
    }
}

/// So many bytes of an entry.
fn some_bytes(script: &[Script], place: usize, used: usize, n: usize) -> &[u8]
    requires some { 1 ≤ n }
    requires within { n ≤ length (drop used (bytes_at script.now place)) }
    ensures exact { result.now ≡ take n (drop used (bytes_at script.now place)) }
{
    let bytes = entry_bytes(script, place);
    &bytes[used..used + n]
}

/// The bytes of the entry at a place; nothing where there is none.
fn entry_bytes(script: &[Script], place: usize) -> &[u8]
    ensures exact { result.now ≡ bytes_at script.now place }
{
    if place < script.len() {
        own_bytes(&script[place])
    } else {
        &[]
    }
}

/// The bytes of an entry.
fn own_bytes(entry: &Script) -> &[u8]
    ensures exact { result.now ≡ bytes_of entry.now }
{
    match entry {
        Script::Bytes { id: _, bytes } => bytes.as_slice(),
        _ => &[],
    }
}

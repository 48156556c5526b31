//! A script that is played, its acts, and which connections are held.

ghost use Rattle.std.specs.Prelude.{◌≡◌, ◌<◌, ◌≤◌, ◌+◌, ◌-◌, [], ◌∷◌, ◌++◌, ℕ, drop, length, IfOk, vec_len, vec_capacity};
ghost use Rattle.edge_io.specs.Acts.{told, Listens, Broke, Closed};
ghost use Rattle.edge_io.specs.Hub.{where_live};
ghost use Rattle.edge_memory.specs.Ids.{has};
ghost use Rattle.edge_memory.specs.MemoryHub.{listened, room_used};
ghost use Rattle.edge_memory.specs.Script.{IsPlayable};
ghost use Rattle.edge_memory.specs.Stage.{fresh_stage, Plays, after_take, after_mark, live_after, opened_by};

use crate::cue::{behind_waits, bytes_in, shot_at, told_as};
use crate::ids::take_out;
use crate::script::Script;
use crate::tape::Tape;
use edge_io::Event;
use std::alloc::{AllocError, Global};
use std::marker::Model;

/// A script that is played. It takes its room at once and grows no more.
pub struct Stage {
    tape: Tape,
    live: Vec<u64>,
    closed: Vec<u64>,
    room: usize,
    kept: usize,
    place: usize,
    used: usize,
    /// An end of a peer is the loss of its connection.
    hangup: bool,
}

impl Drop for Stage {
    fn drop(self) {
        let Stage {
            tape: _,
            live: _,
            closed: _,
            room: _,
            kept: _,
            place: _,
            used: _,
            hangup: _,
        } = self;
    }
}

impl Model for Stage {
    ghost use Rattle.edge_memory.specs.Stage.{Stage as Shown};

    ghost Value = { Shown };

    ghost use Rattle.edge_memory.specs.StageView.{stage_of, IsSet};

    ghost view = { stage_of };

    ghost invariant = { IsSet };
}

impl Stage {
    /// A script of which nothing was played, with room for so many openings, events, sends, and bytes
    /// of addresses and sends.
    pub fn new(alloc: Global, script: Vec<Script>, room: usize) -> Result<Stage, AllocError>
        requires lawful { IsPlayable script.items }
        ensures value { IfOk result (λ stage. stage ≡ fresh_stage script.items room) }
    {
        let entries = script.len();
        let Some(notes) = room.checked_add(entries) else {
            return Err(AllocError);
        };
        Ok(Stage {
            tape: Tape::new(alloc, script, notes, room)?,
            live: Vec::with_capacity(alloc, entries)?,
            closed: Vec::with_capacity(alloc, entries)?,
            room,
            kept: 0,
            place: 0,
            used: 0,
            hangup: false,
        })
    }

    /// How much of the room is left.
    pub fn spare(&self) -> usize
        ensures value { result ≡ self.now.room - room_used self.now.acts }
    {
        self.room - self.kept
    }

    /// Whether a close of this connection is noted.
    pub fn closed(&self, id: u64) -> bool
        ensures exact { result ≡ (told id self.now.acts).closed }
    {
        self.closed.contains(&id)
    }

    /// The bytes that were sent to this connection.
    pub fn bytes_to(&self, alloc: Global, id: u64) -> Result<Vec<u8>, AllocError>
        ensures exact { IfOk result (λ bytes. bytes.items ≡ (told id self.now.acts).sent) }
    {
        self.tape.bytes_to(alloc, id)
    }

    /// The addresses at which the hub listened, each with an end of line.
    pub fn listened(&self, alloc: Global) -> Result<Vec<u8>, AllocError>
        ensures exact { IfOk result (λ bytes. bytes.items ≡ listened self.now.acts) }
    {
        self.tape.listened(alloc)
    }

    /// Notes that the hub listens at this address, from now on with an end of a peer as a loss or not.
    pub fn listen(&mut self, address: &[u8], hangup: bool)
        requires room { room_used self.old.acts + length address.now < self.old.room }
        ensures value { self.new ≡ after_mark self.old (Listens address.now hangup ∷ []) }
    {
        self.tape.note_listening(address, hangup);
        self.kept += address.len() + 1;
        self.hangup = hangup;
    }

    /// Gives the next event, of at most so many bytes, and notes it.
    pub fn play(&mut self, buf: &mut [u8], most: usize) -> Event
        requires room { room_used self.old.acts < self.old.room }
        requires some { 1 ≤ most }
        requires fits { most ≤ length buf.old }
        ensures exact { Plays self.old self.new most buf.old buf.new result }
    {
        let (place, used) = behind_waits(
            self.tape.script(),
            self.closed.as_slice(),
            self.place,
            self.used,
        );
        let shot = shot_at(self.tape.script(), place, used, most);
        let event = told_as(self.hangup, shot.event);
        fill(buf, bytes_in(self.tape.script(), event, place, used));
        self.tape.note_event(event, place, used);
        follow(&mut self.live, event);
        self.kept += 1;
        self.place = shot.place;
        self.used = shot.used;
        event
    }

    /// Notes a send that took these bytes.
    pub fn take(&mut self, id: u64, bytes: &[u8])
        requires room { room_used self.old.acts + length bytes.now < self.old.room }
        ensures value { self.new ≡ after_take self.old id bytes.now }
    {
        self.tape.note_taken(id, bytes);
        self.kept += bytes.len() + 1;
    }

    /// Notes a send that failed, where the connection is held.
    pub fn break_off(&mut self, id: u64)
        ensures value { self.new ≡ after_mark self.old (where_live id self.old.acts (Broke id)) }
    {
        let held = self.live.contains(&id);
        if held {
            self.tape.note_broken(id);
            take_out(&mut self.live, id);
        }
    }

    /// Notes a close, where the connection is held.
    pub fn close(&mut self, id: u64)
        ensures value { self.new ≡ after_mark self.old (where_live id self.old.acts (Closed id)) }
    {
        if self.live.contains(&id) {
            self.tape.note_closed(id);
            take_out(&mut self.live, id);
            self.closed.push_reserved(id);
        }
    }
}

/// Puts bytes at the front of a buffer.
fn fill(buf: &mut [u8], bytes: &[u8])
    requires fits { length bytes.now ≤ length buf.old }
    ensures filled { buf.new ≡ bytes.now ++ drop (length bytes.now) buf.old }
{
    buf[..bytes.len()].copy_from_slice(bytes);
}

/// The connections that are held after an event.
fn follow(live: &mut Vec<u64>, event: Event)
    requires room { vec_len live.old + opened_by event ≤ vec_capacity live.old }
    ensures exact { (id : ℕ) → has id live.new.items ≡ live_after event id (has id live.old.items) }
    ensures few { vec_len live.new ≤ vec_len live.old + opened_by event }
    ensures capacity { vec_capacity live.new ≡ vec_capacity live.old }
{
    match event {
        Event::Opened { id } => live.push_reserved(id),
        Event::Lost { id } => take_out(live, id),
        _ => {}
    }
}

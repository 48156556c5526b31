//! A script and the acts over it, noted without copies of its bytes.

ghost use Rattle.std.specs.Prelude.{◌≡◌, ◌<◌, ◌≤◌, ◌+◌, ◌-◌, [], ◌∷◌, ◌++◌, length, IfOk, OnOk, vec_len, vec_capacity};
ghost use Rattle.edge_io.specs.Acts.{Listens, Gave, Took, Broke, Closed, told};
ghost use Rattle.edge_memory.specs.MemoryHub.{listened};
ghost use Rattle.edge_memory.specs.Tape.{IsBlank, Notes, noted_bytes, IsNotedWithin, listened_by, sent_by};

use crate::note::Note;
use crate::script::Script;
use edge_io::Event;
use std::alloc::{AllocError, Global};
use std::marker::Model;

/// A script, the acts that were noted over it, and the bytes that were kept for them: those of
/// addresses and of sends. It takes its room at once and grows no more.
pub struct Tape {
    script: Vec<Script>,
    notes: Vec<Note>,
    kept: Vec<u8>,
}

impl Drop for Tape {
    fn drop(self) {
        let Tape {
            script: _,
            notes: _,
            kept: _,
        } = self;
    }
}

impl Model for Tape {
    ghost use Rattle.edge_memory.specs.Tape.{Tape as Noted};

    ghost Value = { Noted };

    ghost use Rattle.edge_memory.specs.TapeView.{tape_of, AreWithin};

    ghost view = { tape_of };

    ghost invariant = { AreWithin };
}

impl Tape {
    /// A tape with no note, and room for so many notes and so many bytes of addresses and sends.
    pub fn new(
        alloc: Global,
        script: Vec<Script>,
        notes: usize,
        bytes: usize,
    ) -> Result<Tape, AllocError>
        ensures value { IfOk result (IsBlank script.items notes bytes) }
    {
        Ok(Tape {
            script,
            notes: Vec::with_capacity(alloc, notes)?,
            kept: Vec::with_capacity(alloc, bytes)?,
        })
    }

    /// The script.
    pub fn script(&self) -> &[Script]
        ensures value { result.now ≡ self.now.script }
    {
        self.script.as_slice()
    }

    /// Notes that the hub listens at this address, with an end of a peer as a loss or not.
    pub fn note_listening(&mut self, address: &[u8], hangup: bool)
        requires room { 1 ≤ self.old.room }
        requires place { length address.now ≤ self.old.place }
        ensures value { Notes self.old self.new (length address.now)
            (Listens address.now hangup) }
    {
        let from = self.kept.len();
        append_reserved(&mut self.kept, address);
        self.notes.push_reserved(Note::Listens {
            from,
            n: address.len(),
            hangup,
        });
    }

    /// Notes an event whose bytes are those from `from` on of the script's entry `place`.
    pub fn note_event(&mut self, event: Event, place: usize, from: usize)
        requires room { 1 ≤ self.old.room }
        ensures value { Notes self.old self.new 0
            (Gave event (noted_bytes self.old.script event place from)) }
    {
        self.notes.push_reserved(Note::Gave { event, place, from });
    }

    /// Notes a send that took these bytes.
    pub fn note_taken(&mut self, id: u64, bytes: &[u8])
        requires room { 1 ≤ self.old.room }
        requires place { length bytes.now ≤ self.old.place }
        ensures value { Notes self.old self.new (length bytes.now) (Took id bytes.now) }
    {
        let from = self.kept.len();
        append_reserved(&mut self.kept, bytes);
        self.notes.push_reserved(Note::Took {
            id,
            from,
            n: bytes.len(),
        });
    }

    /// Notes a send that failed.
    pub fn note_broken(&mut self, id: u64)
        requires room { 1 ≤ self.old.room }
        ensures value { Notes self.old self.new 0 (Broke id) }
    {
        self.notes.push_reserved(Note::Broke { id });
    }

    /// Notes a close.
    pub fn note_closed(&mut self, id: u64)
        requires room { 1 ≤ self.old.room }
        ensures value { Notes self.old self.new 0 (Closed id) }
    {
        self.notes.push_reserved(Note::Closed { id });
    }

    /// The bytes that were sent to this connection.
    pub fn bytes_to(&self, alloc: Global, id: u64) -> Result<Vec<u8>, AllocError>
        ensures exact { IfOk result (λ bytes. bytes.items ≡ (told id self.now.acts).sent) }
    {
        let mut bytes = Vec::new(alloc);
        'notes: for note in self.notes.as_slice() {
            let taken = taken_for(note, id, self.kept.as_slice());
            bytes.extend_from_slice(taken)?;
        }
        Ok(bytes)
    }

    /// The addresses at which the hub listened, each with an end of line.
    pub fn listened(&self, alloc: Global) -> Result<Vec<u8>, AllocError>
        ensures exact { IfOk result (λ bytes. bytes.items ≡ listened self.now.acts) }
    {
        let mut lines = Vec::new(alloc);
        'notes: for note in self.notes.as_slice() {
            append_listened(&mut lines, note, self.kept.as_slice())?;
        }
        Ok(lines)
    }
}

/// Puts bytes at the end of a list that has room for them.
fn append_reserved(bytes: &mut Vec<u8>, more: &[u8])
    requires room { vec_len bytes.old + length more.now ≤ vec_capacity bytes.old }
    ensures items { bytes.new.items ≡ bytes.old.items ++ more.now }
    ensures len { vec_len bytes.new ≡ vec_len bytes.old + length more.now }
    ensures capacity { vec_capacity bytes.old ≤ vec_capacity bytes.new }
{
    bytes.extend_from_slice(more).unwrap();
}

/// Appends the address at which a note says that the hub listened, with an end of line.
fn append_listened(lines: &mut Vec<u8>, note: &Note, kept: &[u8]) -> Result<(), AllocError>
    requires within { IsNotedWithin kept.now note.now }
    ensures value { OnOk result (lines.new.items ≡ lines.old.items ++ listened_by kept.now note.now) }
{
    match *note {
        Note::Listens { from, n, hangup: _ } => {
            lines.extend_from_slice(&kept[from..from + n])?;
            lines.push(b'\n')?;
            Ok(())
        }
        _ => Ok(()),
    }
}

/// The bytes that a note says were sent to this connection.
fn taken_for<'a>(note: &Note, id: u64, sent: &'a [u8]) -> &'a [u8]
    requires within { IsNotedWithin sent.now note.now }
    ensures exact { result.now ≡ sent_by id sent.now note.now }
{
    match *note {
        Note::Took { id: to, from, n } if to == id => &sent[from..from + n],
        _ => &[],
    }
}

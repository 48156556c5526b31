//! Where the program notes what it does.

ghost use Rattle.std.specs.Prelude.{◌≡◌, ℕ, List, true, IfOk, OnOk, OnErr};
ghost use Rattle.edge_io.specs.Sink.{BreaksOff, Grows};
ghost use Rattle.run_files.specs.Notes.{IsNoted, IsWritten, heard};

use edge_io::{Failed, Sink, send_all};
use std::alloc::AllocError;
use std::marker::Model;

/// Where the program notes what it does, until a note can't be written. What it notes changes
/// nothing else: whoever notes is told nothing of what became of it.
#[derive(Drop)]
pub struct Notes<N: Sink> {
    sink: N,
    is_on: bool,
}

impl<N: Sink> Model for Notes<N> {
    ghost use Rattle.run_files.specs.Notes.{NotesSeen};

    ghost Value = { NotesSeen };

    ghost view = { λ s. record { sink = N.seen s.sink; is_on = s.is_on } };
}

impl<N: Sink> Notes<N> {
    /// Notes to this sink.
    pub fn over(sink: N) -> Self
        ensures value { result ≡ record { sink = N.seen sink; is_on = true } }
    {
        Notes { sink, is_on: true }
    }

    /// The sink.
    pub fn sink(&self) -> &N
        ensures value { N.seen result.now ≡ self.now.sink }
    {
        &self.sink
    }

    /// Notes nothing from now on, unless notes are wanted.
    pub fn keep_if(&mut self, wanted: bool)
        ensures value { self.new ≡ heard wanted self.old }
    {
        self.is_on = self.is_on && wanted;
    }

    /// Notes a line, if it could be made. Where it can't be made or written, nothing is noted from
    /// then on.
    pub fn note(&mut self, line: Result<Vec<u8>, AllocError>)
        ensures noted { (text : List ℕ) → IfOk line (λ v. v.items ≡ text) →
            IsNoted text self.old self.new }
    {
        if self.is_on {
            self.is_on = written(&mut self.sink, line);
        }
    }

    /// Writes bytes, whatever became of the notes.
    pub fn say(&mut self, bytes: &[u8]) -> Result<(), Failed>
        ensures value { OnOk result (Grows self.old.sink self.new.sink bytes.now) }
        ensures kept { OnErr result (BreaksOff self.old.sink self.new.sink bytes.now) }
    {
        send_all(&mut self.sink, bytes)
    }
}

/// Whether a line could be made and is written.
fn written<N: Sink>(sink: &mut N, line: Result<Vec<u8>, AllocError>) -> bool
    ensures whole { (text : List ℕ) → IfOk line (λ v. v.items ≡ text) →
        IsWritten result text (N.seen sink.old) (N.seen sink.new) }
{
    match line {
        Ok(text) => match send_all(sink, text.as_slice()) {
            Ok(()) => true,
            Err(_) => false,
        },
        Err(_) => false,
    }
}

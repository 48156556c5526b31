//! A writer as a sink, the standard output among them.

ghost use Rattle.std.specs.Prelude.{◌≡◌, None};

use crate::failed::{Failed, next_count};
use crate::sink::Sink;
use std::io;
use std::io::{Printer, Write};
use std::marker::Model;

/// A writer as a sink; it tells what the writer does, and counts the calls that failed.
#[derive(Drop)]
pub struct WriteSink<W: Write> {
    to: W,
    faults: u64,
}

/// The standard output of a runtime as a sink.
pub type StdSink<'a, R> = WriteSink<Printer<'a, R>>;

impl<W: Write> Model for WriteSink<W> {
    ghost use Rattle.edge_io.specs.Sink.{SinkSeen};

    ghost Value = { SinkSeen };

    ghost view = { λ s. record { held = W.contents s.to; faults = s.faults } };
}

impl<W: Write> WriteSink<W> {
    /// This writer as a sink, with no fault so far.
    pub fn over(to: W) -> Self
        ensures value { result ≡ record { held = W.contents to; faults = 0 } }
    {
        WriteSink { to, faults: 0 }
    }
}

impl<'a, R: Print> WriteSink<Printer<'a, R>> {
    /// The standard output of `rt`, with no fault so far.
    pub fn new(rt: &'a R) -> Self
        ensures value { result ≡ record { held = None; faults = 0 } }
    {
        WriteSink::over(io::writer(rt))
    }
}

impl<W: Write> Sink for WriteSink<W> {
    ghost seen = { λ s. s };

    fn write(&mut self, piece: &[u8]) -> Result<usize, Failed> {
        match self.to.write(piece) {
            Ok(taken) if taken > 0 || piece.is_empty() => Ok(taken),
            _ => {
                self.faults = next_count(self.faults);
                Err(Failed)
            }
        }
    }
}

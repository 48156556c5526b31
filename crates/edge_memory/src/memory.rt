//! A sink in memory, which tells what it holds and fails where it is told to.

ghost use Rattle.std.specs.Prelude.{◌≡◌, ◌≤◌, ◌↔◌, IfOk, OnOk, OnErr, IsErr, take};
ghost use Rattle.edge_io.specs.Sink.{TakesFront, Grows, FailsToTake};
ghost use Rattle.edge_memory.specs.Memory.{seen_of, fresh_store, FailsNext, taken_of, after_write, after_fault};

use edge_io::{Failed, Sink, next_count};
use std::alloc::{AllocError, Global};
use std::marker::Model;

/// A sink in memory. It takes its room at once and grows no more.
pub struct MemSink {
    bytes: Vec<u8>,
    failing: Vec<u64>,
    room: usize,
    piece: usize,
    calls: u64,
    faults: u64,
}

impl Drop for MemSink {
    fn drop(self) {
        let MemSink {
            bytes: _,
            failing: _,
            room: _,
            piece: _,
            calls: _,
            faults: _,
        } = self;
    }
}

impl Model for MemSink {
    ghost use Rattle.std.specs.Prelude.{◌≤◌, vec_len, vec_capacity};
    ghost use Rattle.edge_memory.specs.Memory.{Store};

    ghost Value = { Store };

    ghost use Rattle.edge_memory.specs.MemoryView.{store_of, HasRoom};

    ghost view = { store_of };

    ghost invariant = { HasRoom };
}

impl MemSink {
    /// An empty sink that holds at most `room` bytes, takes at most `piece` at a time, and fails at
    /// the calls whose numbers, from 0, are in `failing`.
    pub fn new(
        alloc: Global,
        room: usize,
        piece: usize,
        failing: Vec<u64>,
    ) -> Result<MemSink, AllocError>
        requires fits { 1 ≤ piece }
        ensures value { IfOk result (λ sink. sink ≡ fresh_store room piece failing.items) }
    {
        Ok(MemSink {
            bytes: Vec::with_capacity(alloc, room)?,
            failing,
            room,
            piece,
            calls: 0,
            faults: 0,
        })
    }

    /// The bytes written so far.
    pub fn bytes(&self) -> &[u8]
        ensures value { result.now ≡ self.now.bytes }
    {
        self.bytes.as_slice()
    }
}

impl Sink for MemSink {
    ghost seen = { seen_of };

    fn write(&mut self, piece: &[u8]) -> Result<usize, Failed>
        ensures refused { IsErr result ↔ FailsNext self.old }
        ensures exact { IfOk result (λ n. n ≡ taken_of self.old piece.now) }
        ensures written { OnOk result (self.new ≡ after_write self.old piece.now) }
        ensures counted { OnErr result (self.new ≡ after_fault self.old) }

        // What each sink promises.
        ensures fits { IfOk result (TakesFront piece.now) }
        ensures value { IfOk result
            (λ n. Grows (seen_of self.old) (seen_of self.new) (take n piece.now)) }
        ensures kept { OnErr result (FailsToTake (seen_of self.old) (seen_of self.new)) }
    {
        let call = self.calls;
        self.calls = next_count(call);
        let left = self.room - self.bytes.len();
        if left == 0 || self.failing.contains(&call) {
            self.faults = next_count(self.faults);
            return Err(Failed);
        }
        let taken = piece.len().min(self.piece).min(left);
        self.bytes.extend_from_slice(&piece[..taken]).unwrap();
        Ok(taken)
    }
}

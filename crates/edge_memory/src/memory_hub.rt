//! A hub in memory, which plays a script, tells its acts and fails where it is told to.

ghost use Rattle.std.specs.Prelude.{◌≡◌, ◌<◌, ◌≤◌, ◌↔◌, [], ◌∷◌, length, IfOk, OnOk, OnErr, IsErr};
ghost use Rattle.edge_io.specs.Acts.{Listens, told};
ghost use Rattle.edge_io.specs.Hub.{FitsBuffer, IsFresh, TellsEndAfter, Does, Gives, Takes, Fails, Breaks, Closes};
ghost use Rattle.edge_memory.specs.MemoryHub.{seen_of, fresh_play, listened, FailsToListen, FailsNext, scene_of, buffer_after, taken_of, after_open, after_scene, after_send, after_fault, after_failed_send, after_close};
ghost use Rattle.edge_memory.specs.Script.{IsPlayable};

use crate::script::Script;
use crate::stage::Stage;
use edge_io::{Event, Failed, Hub, next_count};
use std::alloc::{AllocError, Global};
use std::collections::VecDeque;
use std::marker::Model;

/// A hub in memory. It takes its room at once and grows no more.
pub struct MemHub {
    stage: Stage,
    failing: Vec<u64>,
    piece: usize,
    calls: u64,
    faults: u64,
    breaks: u64,
}

impl Drop for MemHub {
    fn drop(self) {
        let MemHub {
            stage: _,
            failing: _,
            piece: _,
            calls: _,
            faults: _,
            breaks: _,
        } = self;
    }
}

impl Model for MemHub {
    ghost use Rattle.std.specs.Prelude.{◌≤◌};
    ghost use Rattle.edge_memory.specs.MemoryHub.{Play};

    ghost Value = { Play };

    ghost use Rattle.edge_memory.specs.MemoryHubView.{play_of};

    ghost view = { play_of };

    ghost invariant = { λ s. 1 ≤ s.piece };
}

impl MemHub {
    /// A hub that plays this script, gives or takes at most `piece` bytes at a time, keeps at most
    /// `room` openings, events, sends, and bytes of addresses and sends together, and fails at the
    /// calls of `open`, `next` and `send` whose numbers, from 0, are in `failing`.
    pub fn new(
        alloc: Global,
        script: Vec<Script>,
        room: usize,
        piece: usize,
        failing: Vec<u64>,
    ) -> Result<MemHub, AllocError>
        requires some { 1 ≤ piece }
        requires playable { IsPlayable script.items }
        ensures value { IfOk result
            (λ hub. hub ≡ fresh_play script.items room piece failing.items) }
    {
        Ok(MemHub {
            stage: Stage::new(alloc, script, room)?,
            failing,
            piece,
            calls: 0,
            faults: 0,
            breaks: 0,
        })
    }

    /// The bytes that were sent to this connection.
    pub fn bytes_to(&self, alloc: Global, id: u64) -> Result<Vec<u8>, AllocError>
        ensures exact { IfOk result (λ bytes. bytes.items ≡ (told id self.now.acts).sent) }
    {
        self.stage.bytes_to(alloc, id)
    }

    /// The addresses at which it listened, in their order, each with an end of line.
    pub fn listened(&self, alloc: Global) -> Result<Vec<u8>, AllocError>
        ensures exact { IfOk result (λ bytes. bytes.items ≡ listened self.now.acts) }
    {
        self.stage.listened(alloc)
    }

    /// Whether a close of this connection is noted.
    pub fn closed(&self, id: u64) -> bool
        ensures exact { result ≡ (told id self.now.acts).closed }
    {
        self.stage.closed(id)
    }
}

impl Hub for MemHub {
    ghost seen = { seen_of };

    fn open(&mut self, address: &str, hangup: bool) -> Result<(), Failed>
        ensures refused { IsErr result ↔ FailsToListen self.old address.now }
        ensures written { OnOk result (self.new ≡ after_open self.old address.now hangup) }
        ensures counted { OnErr result (self.new ≡ after_fault self.old) }

        // What each hub promises.
        ensures value { OnOk result (Does (seen_of self.old) (seen_of self.new)
            (Listens address.now hangup ∷ [])) }
        ensures kept { OnErr result (Fails (seen_of self.old) (seen_of self.new)) }
    {
        let call = self.calls;
        self.calls = next_count(call);
        if self.stage.spare() <= address.len() || self.failing.contains(&call) {
            self.faults = next_count(self.faults);
            return Err(Failed);
        }
        self.stage.listen(address.as_bytes(), hangup);
        Ok(())
    }

    fn next(
        &mut self,
        buf: &mut [u8],
        _waiting: &VecDeque<u64>,
        _busy: bool,
    ) -> Result<Event, Failed>
        requires some { 0 < length buf.old }
        ensures refused { IsErr result ↔ FailsNext self.old }
        ensures exact { IfOk result (λ event. event ≡ (scene_of self.old (length buf.old)).event) }
        ensures filled { OnOk result
            (buf.new ≡ buffer_after (scene_of self.old (length buf.old)).bytes buf.old) }
        ensures written { OnOk result
            (self.new ≡ after_scene self.old (scene_of self.old (length buf.old))) }
        ensures counted { OnErr result (self.new ≡ after_fault self.old) }
        ensures unfilled { OnErr result (buf.new ≡ buf.old) }

        // What each hub promises.
        ensures fits { IfOk result (FitsBuffer buf.new) }
        ensures fresh { IfOk result (IsFresh (seen_of self.old).acts) }
        ensures only { IfOk result (TellsEndAfter (seen_of self.old).acts) }
        ensures value { IfOk result (Gives (seen_of self.old) (seen_of self.new) buf.new) }
        ensures kept { OnErr result (Fails (seen_of self.old) (seen_of self.new)) }
    {
        let call = self.calls;
        self.calls = next_count(call);
        if self.stage.spare() == 0 || self.failing.contains(&call) {
            self.faults = next_count(self.faults);
            return Err(Failed);
        }
        let most = buf.len().min(self.piece);
        Ok(self.stage.play(buf, most))
    }

    fn send(&mut self, id: u64, piece: &[u8]) -> Result<usize, Failed>
        ensures refused { IsErr result ↔ FailsNext self.old }
        ensures exact { IfOk result (λ n. n ≡ taken_of self.old piece.now) }
        ensures written { IfOk result (λ n. self.new ≡ after_send self.old id piece.now n) }
        ensures counted { OnErr result (self.new ≡ after_failed_send self.old id) }

        // What each hub promises.
        ensures fits { IfOk result (λ n. n ≤ length piece.now) }
        ensures value { IfOk result (Takes (seen_of self.old) (seen_of self.new) id piece.now) }
        ensures broke { OnErr result (Breaks (seen_of self.old) (seen_of self.new) id) }
    {
        let call = self.calls;
        self.calls = next_count(call);
        let spare = self.stage.spare();
        if spare == 0 || self.failing.contains(&call) {
            self.breaks = next_count(self.breaks);
            self.stage.break_off(id);
            return Err(Failed);
        }
        let taken = piece.len().min(self.piece).min(spare - 1);
        self.stage.take(id, &piece[..taken]);
        Ok(taken)
    }

    fn close(&mut self, id: u64)
        ensures written { self.new ≡ after_close self.old id }

        // What each hub promises.
        ensures value { Closes (seen_of self.old) (seen_of self.new) id }
    {
        self.stage.close(id);
    }
}

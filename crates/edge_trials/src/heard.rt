//! What a hub told of its connections.

ghost use Rattle.std.specs.Prelude.{◌≡◌, ◌==◌, ◌≤◌, ◌+◌, ◌↔◌, not, length, IsTrue, OnOk};
ghost use Rattle.std.specs.List.{filter};
ghost use Rattle.edge_io.specs.Hub.{FitsBuffer};
ghost use Rattle.edge_trials.specs.Heard.{HasMessage, HasPeers, ends_as, heard_after, nothing_heard, value_of};

use edge_io::Event;
use std::alloc::{AllocError, Global};

/// What a hub told: how many connections opened, ended and were lost, the last that opened, and all
/// bytes that came.
#[derive(Drop)]
pub struct Heard {
    /// How many connections opened.
    pub opened: u64,
    /// How many peers told their end.
    pub ended: u64,
    /// How many connections were lost.
    pub lost: u64,
    /// The number of the connection that opened last.
    pub last: u64,
    /// The bytes of all connections, in the order in which they came.
    pub bytes: Vec<u8>,
}

impl Heard {
    /// Nothing was told yet.
    pub fn new(alloc: Global) -> Heard
        ensures exact { value_of result ≡ nothing_heard }
    {
        Heard {
            opened: 0,
            ended: 0,
            lost: 0,
            last: 0,
            bytes: Vec::new(alloc),
        }
    }

    /// Takes an event, whose bytes stand at the front of a buffer.
    pub fn take(&mut self, event: Event, buf: &[u8]) -> Result<(), AllocError>
        requires fits { FitsBuffer buf.now event }
        ensures exact { OnOk result
            (value_of self.new ≡ heard_after (value_of self.old) event buf.now) }
    {
        match event {
            Event::Opened { id } => {
                self.opened = self.opened.saturating_add(1);
                self.last = id;
            }
            Event::Bytes { id: _, n } => self.bytes.extend_from_slice(&buf[..n])?,
            Event::Ended { id: _ } => self.ended = self.ended.saturating_add(1),
            Event::Lost { id: _ } => self.lost = self.lost.saturating_add(1),
            Event::Quiet | Event::Over => {}
        }
        Ok(())
    }

    /// Whether at least so many bytes came, and at least so many connections ended or were lost.
    pub fn has(&self, bytes: usize, gone: u64) -> bool
        ensures exact { IsTrue result ↔
            (bytes ≤ length self.now.bytes.items × gone ≤ self.now.ended + self.now.lost) }
    {
        self.bytes.len() >= bytes && self.ended.saturating_add(self.lost) >= gone
    }

    /// Whether one connection opened, and these bytes came.
    pub fn has_message(&self, text: &[u8]) -> bool
        ensures exact { IsTrue result ↔ HasMessage (value_of self.now) text.now }
    {
        self.opened == 1 && self.bytes.as_slice() == text
    }

    /// Whether the end of the only peer was told as a loss, after which the hub holds the connection
    /// no more, or as an end, after which it holds it still.
    pub fn ends_as(&self, lost: bool, held: bool) -> bool
        ensures exact { result ≡ ends_as (value_of self.now) lost held }
    {
        if lost {
            self.lost == 1 && self.ended == 0 && !held
        } else {
            self.lost == 0 && self.ended == 1 && held
        }
    }

    /// Whether so many peers opened and so many bytes of others than the loud one came, before so
    /// many bytes came in all.
    pub fn has_peers(&self, peers: u64, others: usize, loud: u8, most: usize) -> bool
        ensures exact { IsTrue result ↔ HasPeers (value_of self.now) peers others loud most }
    {
        let came = others_of(self.bytes.as_slice(), loud);
        (self.opened == peers) & (came == others) & (self.bytes.len() < most)
    }
}

/// How many bytes aren't this one.
pub fn others_of(bytes: &[u8], loud: u8) -> usize
    ensures exact { result ≡ length (filter (λ byte. not (byte == loud)) bytes.now) }
{
    bytes.iter().filter(|byte| **byte != loud).count()
}

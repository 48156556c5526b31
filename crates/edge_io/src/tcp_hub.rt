//! The network of the system as a hub, which tells nothing of its acts.

ghost use Rattle.std.specs.Prelude.{◌≡◌};
ghost use Rattle.edge_io.specs.Sockets.{fresh_hub};

use crate::event::Event;
use crate::failed::{Failed, counted};
use crate::hub::Hub;
use crate::sockets::Sockets;
use std::alloc::Global;
use std::collections::VecDeque;
use std::marker::Model;
use std::net::Net;
use std::time::Clock;

/// Connections over TCP, of one thread. It waits only for a caller that isn't busy and has no
/// answer in work.
#[derive(Drop)]
pub struct TcpHub<'a, R: Net> {
    rt: &'a R,
    sockets: Sockets,
    faults: u64,
    breaks: u64,
}

impl<'a, R: Net> Model for TcpHub<'a, R> {
    ghost use Rattle.std.specs.Prelude.{None};
    ghost use Rattle.edge_io.specs.Hub.{HubSeen};

    ghost Value = { HubSeen };

    ghost view = { λ s. record { acts = None; faults = s.faults; breaks = s.breaks } };
}

impl<'a, R: Net> TcpHub<'a, R> {
    /// The network of `rt`, on which nothing is open; it takes no memory yet.
    pub fn new(rt: &'a R, alloc: Global) -> Self
        ensures value { result ≡ fresh_hub }
    {
        TcpHub {
            rt,
            sockets: Sockets::new(alloc),
            faults: 0,
            breaks: 0,
        }
    }
}

impl<R: Net + Clock> Hub for TcpHub<'_, R> {
    ghost seen = { λ s. s };

    fn open(&mut self, address: &str, hangup: bool) -> Result<(), Failed> {
        counted(
            self.sockets.open(self.rt, address, hangup),
            &mut self.faults,
        )
    }

    fn next(
        &mut self,
        buf: &mut [u8],
        waiting: &VecDeque<u64>,
        busy: bool,
    ) -> Result<Event, Failed> {
        counted(
            self.sockets.next(self.rt, buf, waiting, busy),
            &mut self.faults,
        )
    }

    fn send(&mut self, id: u64, piece: &[u8]) -> Result<usize, Failed> {
        counted(self.sockets.send(id, piece), &mut self.breaks)
    }

    fn close(&mut self, id: u64) {
        self.sockets.close(self.rt, id);
    }
}

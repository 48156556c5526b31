//! The listening socket, and what tells which sockets are ready: each call of the system on them.

ghost use Rattle.std.specs.Prelude.{◌≡◌, false, IfOk};

use crate::failed::Failed;
use crate::replies::{Arrival, arrived, waited};
use mio::net::{TcpListener, TcpStream};
use mio::{Events, Interest, Poll, Token};
use std::alloc::Global;
use std::io;
use std::net::{Net, Shutdown, SocketAddr};
use std::time::{Clock, Duration, Instant};

/// The number in line of the listening socket; connections have numbers from 1.
pub(crate) const DOOR: u64 = 0;

/// The most events that are asked for at a time; more come the next time.
const EVENTS: usize = 128;

/// A listening socket, and what tells which sockets are ready.
pub(crate) struct Door {
    pub(crate) listener: TcpListener,
    pub(crate) poll: Poll,
    pub(crate) events: Events,
    pub(crate) in_line: bool,
    /// How often in a row no connection could be taken in for want of descriptors.
    pub(crate) vain: u32,
}

impl Drop for Door {
    fn drop(self) {
        let Door {
            listener: _,
            poll: _,
            events: _,
            in_line: _,
            vain: _,
        } = self;
    }
}

impl Door {
    /// A door at this listening socket.
    pub(crate) fn new<N: Net>(alloc: Global, net: &N, listener: TcpListener) -> Result<Door, Failed>
        ensures out { IfOk result (λ door. door.in_line ≡ false) }
    {
        let Ok(poll) = Poll::new(net) else {
            return Err(Failed);
        };
        let Ok(events) = Events::with_capacity(alloc, EVENTS) else {
            return Err(Failed);
        };
        let mut listener = listener;
        watch_door(&poll, &mut listener)?;
        Ok(Door {
            listener,
            poll,
            events,
            in_line: false,
            vain: 0,
        })
    }

    /// Another listening socket in place of the one before.
    pub(crate) fn replace(&mut self, mut listener: TcpListener) -> Result<(), Failed>
        ensures in_line { self.new.in_line ≡ self.old.in_line }
    {
        watch_door(&self.poll, &mut listener)?;
        self.listener = listener;
        Ok(())
    }

    /// Waits so long for sockets that are ready.
    pub(crate) fn wait(&mut self, time: Duration) -> Result<(), Failed>
        ensures in_line { self.new.in_line ≡ self.old.in_line }
    {
        waited(self.poll.poll(&mut self.events, Some(time)))
    }

    /// Takes in a connection.
    pub(crate) fn accept(&mut self) -> Arrival<(TcpStream, SocketAddr)>
        ensures in_line { self.new.in_line ≡ self.old.in_line }
    {
        let arrival = arrived(self.listener.accept());
        self.vain = match &arrival {
            Arrival::Full => self.vain.saturating_add(1),
            _ => 0,
        };
        arrival
    }

    /// Has a connection reported when it may be read or written.
    pub(crate) fn watch(&self, stream: &mut TcpStream, id: u64) -> io::Result<()>
        ensures same { stream.new ≡ stream.old }
    {
        self.poll.registry().register(
            stream,
            Token(id as usize),
            Interest::READABLE | Interest::WRITABLE,
        )
    }

    /// Has a connection that was closed reported under another number when it may be read.
    pub(crate) fn watch_leaving(&self, stream: &mut TcpStream, number: u64) -> io::Result<()>
        ensures same { stream.new ≡ stream.old }
    {
        self.poll
            .registry()
            .reregister(stream, Token(number as usize), Interest::READABLE)
    }
}

/// Listens at this address.
pub(crate) fn listen<N: Net>(net: &N, address: SocketAddr) -> Result<TcpListener, Failed> {
    match TcpListener::bind(net, address) {
        Ok(listener) => Ok(listener),
        Err(_) => Err(Failed),
    }
}

/// Has a listening socket reported when a peer waits.
fn watch_door(poll: &Poll, listener: &mut TcpListener) -> Result<(), Failed> {
    waited(
        poll.registry()
            .register(listener, Token(DOOR as usize), Interest::READABLE),
    )
}

/// Tells a peer that nothing more is sent.
pub(crate) fn hang_up(stream: &TcpStream) -> io::Result<()> {
    stream.shutdown(Shutdown::Write)
}

/// The time now, where the clock tells it.
pub(crate) fn time_now<C: Clock>(clock: &C) -> Option<Instant> {
    match Instant::now(clock) {
        Ok(now) => Some(now),
        Err(_) => None,
    }
}

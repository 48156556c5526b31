//! The network of the system: its listening socket, the connections that are held, and those that
//! are left.

ghost use Rattle.std.specs.Prelude.{◌≡◌, ◌≢◌, ◌<◌, ◌≤◌, ◌==◌, ◌||◌, ℕ, true, false, None, Some, length, IfOk, IfSome, OnOk, OnErr, OnSome, IsSome, IsNone};
ghost use Rattle.std.specs.BTreeMap.{get, Updates};
ghost use Rattle.std.specs.Duration.{as_nanos};
ghost use Rattle.std.specs.Ordering.{nat_cmp};
ghost use Rattle.edge_io.specs.Acts.{is_event_of};
ghost use Rattle.edge_io.specs.Hub.{FitsBuffer, TellsEnd};
ghost use Rattle.edge_io.specs.Idle.{TellsDoor};
ghost use Rattle.edge_io.specs.Peers.{SendsTo, is_whole};
ghost use Rattle.edge_io.specs.Sockets.{IsOn, nap_of};

use crate::door::{DOOR, Door, hang_up, listen, time_now};
use crate::event::Event;
use crate::failed::Failed;
use crate::leaving::{Leaving, MOST_LEAVING};
use crate::peers::{Peer, Peers};
use crate::replies::{address_of, nap};
use mio::Token;
use mio::net::TcpStream;
use std::alloc::Global;
use std::collections::VecDeque;
use std::net::Net;
use std::time::{Clock, Duration};

/// For how many more in line memory is kept than are held: for all that are left, one connection
/// more, and the listening socket.
pub(crate) const SPARE: usize = MOST_LEAVING + 2;

/// How often in a row no connection may be taken in for want of descriptors while none is held.
const MOST_VAIN: u32 = 100;

/// The listening socket, the connections that are held by their numbers, and those that are left.
pub struct Sockets {
    alloc: Global,
    pub(crate) door: Option<Door>,
    pub(crate) peers: Peers<TcpStream>,
    pub(crate) leaving: Leaving<TcpStream>,
    /// An end of a peer is the loss of its connection.
    pub(crate) hangup: bool,
}

impl Drop for Sockets {
    fn drop(self) {
        let Sockets {
            alloc: _,
            door: _,
            peers: _,
            leaving: _,
            hangup: _,
        } = self;
    }
}

impl Sockets {
    /// No socket.
    pub fn new(alloc: Global) -> Sockets {
        Sockets {
            alloc,
            door: None,
            peers: Peers::new(alloc),
            leaving: Leaving::new(alloc),
            hangup: false,
        }
    }

    /// Listens at this address, in place of the one before; the connections stay. With `hangup` an
    /// end of a peer is the loss of its connection from then on.
    pub fn open<N: Net>(&mut self, net: &N, address: &str, hangup: bool) -> Result<(), Failed>
        ensures hangup { OnOk result (self.new.hangup ≡ hangup) }
        ensures kept { OnErr result (self.new.hangup ≡ self.old.hangup) }
        ensures held { self.new.peers.held ≡ self.old.peers.held }
    {
        self.listen_at(net, address)?;
        self.hangup = hangup;
        Ok(())
    }

    /// Listens at this address, in place of the one before.
    fn listen_at<N: Net>(&mut self, net: &N, address: &str) -> Result<(), Failed>
        ensures same { self.new.hangup ≡ self.old.hangup }
        ensures held { self.new.peers.held ≡ self.old.peers.held }
    {
        let listener = listen(net, address_of(address)?)?;
        match &mut self.door {
            Some(door) => door.replace(listener),
            None => {
                let door = Door::new(self.alloc, net, listener)?;
                self.peers.make_room(SPARE)?;
                self.door = Some(door);
                Ok(())
            }
        }
    }

    /// What happens next, as far as it is known now. Of those that wait for an answer none is let go
    /// to make room.
    pub fn next<C: Clock>(
        &mut self,
        clock: &C,
        buf: &mut [u8],
        waiting: &VecDeque<u64>,
        busy: bool,
    ) -> Result<Event, Failed>
        requires some { 0 < length buf.old }
        ensures fits { IfOk result (FitsBuffer buf.new) }
        ensures on { IfOk result IsOn }
        ensures only { IfOk result (TellsEnd self.old.hangup) }
        ensures same { self.new.hangup ≡ self.old.hangup }
    {
        let time = self.patience(waiting, busy);
        self.look(time)?;
        self.leave_over(clock);
        'turns: for _ in 0..self.peers.turns.len() {
            let Some(id) = self.peers.turns.take() else {
                return Ok(Event::Quiet);
            };
            if let Some(event) = self.serve(id, buf, waiting) {
                return Ok(event);
            }
        }
        Ok(Event::Quiet)
    }

    /// How long to wait now, where these wait for an answer; what was sent before no longer hurries
    /// the wait after this one.
    fn patience(&mut self, waiting: &VecDeque<u64>, busy: bool) -> Duration
        ensures exact { as_nanos result ≡
            nap_of (length self.old.peers.turns.waiting) (length waiting.now.items)
            self.old.peers.moved busy }
        ensures still { self.new.peers.moved ≡ false }
        ensures held { self.new.peers.held ≡ self.old.peers.held }
        ensures line { self.new.peers.turns ≡ self.old.peers.turns }
        ensures same { self.new.hangup ≡ self.old.hangup }
    {
        let time = nap(
            self.peers.turns.len(),
            waiting.len(),
            self.peers.moved,
            busy,
        );
        self.peers.moved = false;
        time
    }

    /// Lets those go that were left for too long.
    fn leave_over<C: Clock>(&mut self, clock: &C)
        ensures held { self.new.peers.held ≡ self.old.peers.held }
        ensures same { self.new.hangup ≡ self.old.hangup }
    {
        if !self.leaving.is_empty() {
            self.leaving
                .drop_all_over(&mut self.peers.turns, time_now(clock));
        }
    }

    /// Waits for so long, and puts in line who is ready. A door at which no connection could be
    /// taken in for want of descriptors tries again after each wait; where that was in vain so often
    /// and no connection is held that could end, it fails.
    fn look(&mut self, time: Duration) -> Result<(), Failed>
        ensures same { self.new.hangup ≡ self.old.hangup }
    {
        let Some(door) = &mut self.door else {
            return Err(Failed);
        };
        if door.vain >= MOST_VAIN && self.peers.held.is_empty() {
            return Err(Failed);
        }
        door.wait(time)?;
        if door.vain > 0 {
            door.in_line = door.in_line || self.peers.turns.join(DOOR);
        }
        'events: for event in door.events.iter() {
            let Token(id) = event.token();
            wake(
                &mut door.in_line,
                &mut self.peers,
                &mut self.leaving,
                id as u64,
            );
        }
        Ok(())
    }

    /// What whoever is in turn has to tell.
    fn serve(&mut self, id: u64, buf: &mut [u8], waiting: &VecDeque<u64>) -> Option<Event>
        requires some { 0 < length buf.old }
        ensures fits { IfSome result (FitsBuffer buf.new) }
        ensures on { IfSome result IsOn }
        ensures own { id ≢ 0 → IfSome result (λ e. is_event_of id e ≡ true) }
        ensures door { id ≡ 0 → IfSome result (TellsDoor self.old.peers.held waiting.now.items
            self.new.peers.held self.new.peers.last) }
        ensures only { IfSome result (TellsEnd self.old.hangup) }
        ensures same { self.new.hangup ≡ self.old.hangup }
    {
        if id == DOOR {
            return self.admit(waiting);
        }
        self.leaving.drain(&mut self.peers.turns, id);
        self.peers.hear(id, buf, self.hangup)
    }

    /// Offers bytes to a connection, which is let go where that fails.
    pub fn send(&mut self, id: u64, piece: &[u8]) -> Result<usize, Failed>
        ensures fits { IfOk result (λ n. n ≤ length piece.now) }
        ensures held { OnOk result (IsSome (get nat_cmp self.old.peers.held id)) }
        ensures gone { OnErr result (IsNone (get nat_cmp self.new.peers.held id)) }
        ensures others { (q : ℕ) → (q == id) ≡ false →
            get nat_cmp self.new.peers.held q ≡ get nat_cmp self.old.peers.held q }
        ensures moved { self.new.peers.moved ≡
            (self.old.peers.moved || is_whole result (length piece.now)) }
        ensures same { self.new.hangup ≡ self.old.hangup }
    {
        self.peers.send(id, piece)
    }

    /// Lets a connection go. Its peer is told that nothing more is sent; what it still sends is
    /// taken for a while, since the system would else break off what it was sent.
    pub fn close<C: Clock>(&mut self, clock: &C, id: u64)
        ensures gone { Updates nat_cmp self.old.peers.held self.new.peers.held id None }
        ensures moved { self.new.peers.moved ≡ self.old.peers.moved }
        ensures same { self.new.hangup ≡ self.old.hangup }
    {
        if let Some(peer) = self.peers.let_go(id) {
            self.leave(clock, peer);
        }
    }

    /// Leaves a connection under a number of its own, where its peer may still send.
    fn leave<C: Clock>(&mut self, clock: &C, peer: Peer<TcpStream>)
        ensures held { self.new.peers.held ≡ self.old.peers.held }
        ensures moved { self.new.peers.moved ≡ self.old.peers.moved }
        ensures same { self.new.hangup ≡ self.old.hangup }
    {
        if peer.ended || hang_up(&peer.stream).is_err() {
            return;
        }
        let Some(since) = time_now(clock) else {
            return;
        };
        let Some(number) = self.peers.take_number() else {
            return;
        };
        let Some(door) = &self.door else {
            return;
        };
        let mut stream = peer.stream;
        if door.watch_leaving(&mut stream, number).is_err() {
            return;
        }
        self.leaving
            .keep(&mut self.peers.turns, number, stream, since);
    }
}

/// Puts whoever has this number in line: the listening socket, a connection that is held, or one
/// that is left.
fn wake(
    door_in_line: &mut bool,
    peers: &mut Peers<TcpStream>,
    leaving: &mut Leaving<TcpStream>,
    id: u64,
)
    ensures others { (q : ℕ) → (q == id) ≡ false →
        get nat_cmp peers.new.held q ≡ get nat_cmp peers.old.held q }
    ensures door { id ≢ 0 → door_in_line.new ≡ door_in_line.old }
{
    if id != DOOR {
        peers.wake(id);
        leaving.wake(&mut peers.turns, id);
    } else {
        *door_in_line = *door_in_line || peers.turns.join(DOOR);
    }
}

//! Connections that wait at the door are taken in, and room is made for them.

ghost use Rattle.std.specs.Prelude.{◌≡◌, ◌≢◌, ◌<◌, ℕ, false, None, Some, length, IfSome, OnSome};
ghost use Rattle.std.specs.BTreeMap.{get, Updates, btree_map_len};
ghost use Rattle.std.specs.Ordering.{nat_cmp};
ghost use Rattle.edge_io.specs.Faults.{next_count};
ghost use Rattle.edge_io.specs.Idle.{AdmitsBy, IsInLine, LetsIdleGo, TellsDoor};
ghost use Rattle.edge_io.specs.declared.event.Event.TheVariants as events;

use crate::door::DOOR;
use crate::event::Event;
use crate::idle::make_way;
use crate::replies::{Arrival, may_wait};
use crate::sockets::{SPARE, Sockets};
use mio::net::TcpStream;
use std::collections::VecDeque;
use std::net::SocketAddr;

impl Sockets {
    /// Takes in a connection that waits at the door, which stays in line while more may wait. Where
    /// no descriptor is left, room is made for it.
    pub(crate) fn admit(&mut self, waiting: &VecDeque<u64>) -> Option<Event>
        ensures own { IfSome result (TellsDoor self.old.peers.held waiting.now.items
            self.new.peers.held self.new.peers.last) }
        ensures same { self.new.hangup ≡ self.old.hangup }
    {
        let Some(door) = &mut self.door else {
            return None;
        };
        let arrival = door.accept();
        door.in_line = may_wait(&arrival) && self.peers.turns.join(DOOR);
        self.arrive(arrival, waiting)
    }

    /// What follows from a try to take in a connection.
    fn arrive(
        &mut self,
        arrival: Arrival<(TcpStream, SocketAddr)>,
        waiting: &VecDeque<u64>,
    ) -> Option<Event>
        ensures exact { AdmitsBy arrival (btree_map_len self.old.leaving.held) self.old.peers.held
            waiting.now.items self.new.peers.held self.new.peers.last result }
        ensures same { self.new.hangup ≡ self.old.hangup }
    {
        match arrival {
            Arrival::Came((stream, _)) => self.welcome(stream),
            Arrival::Full => self.make_way(waiting),
            Arrival::NoneNow | Arrival::Again => None,
        }
    }

    /// Makes room for a connection where no descriptor is left; the door stays in line where one was
    /// let go.
    fn make_way(&mut self, waiting: &VecDeque<u64>) -> Option<Event>
        ensures left { btree_map_len self.old.leaving.held ≢ 0 →
            (result ≡ None) × (self.new.peers.held ≡ self.old.peers.held) }
        ensures idle { btree_map_len self.old.leaving.held ≡ 0 →
            LetsIdleGo self.old.peers.held waiting.now.items self.new.peers.held result }
        ensures stays { OnSome result (length self.old.peers.turns.waiting <
            self.old.peers.turns.room → IsInLine self.new.door) }
        ensures same { self.new.hangup ≡ self.old.hangup }
    {
        match &mut self.door {
            Some(door) => make_way(
                &mut door.in_line,
                &mut self.peers,
                &mut self.leaving,
                waiting,
            ),
            None => make_way(&mut false, &mut self.peers, &mut self.leaving, waiting),
        }
    }

    /// Holds a connection from now on. Where it can't, the connection is dropped and nothing is
    /// told.
    fn welcome(&mut self, stream: TcpStream) -> Option<Event>
        ensures own { IfSome result (λ e. e ≡ events.Opened self.new.peers.last) }
        ensures counts { OnSome result (self.old.peers.last < self.new.peers.last) }
        ensures held { OnSome result (Updates nat_cmp self.old.peers.held self.new.peers.held
            self.new.peers.last
            (Some (record {
              stream = stream;
              ended = false;
              in_line = false;
              used = next_count self.old.peers.uses;
            }))) }
        ensures none { result ≡ None → (q : ℕ) →
            get nat_cmp self.new.peers.held q ≡ get nat_cmp self.old.peers.held q }
        ensures same { self.new.hangup ≡ self.old.hangup }
    {
        let Some(id) = self.peers.next_number() else {
            return None;
        };
        if self.peers.make_room(SPARE).is_err() {
            return None;
        }
        let Some(door) = &self.door else {
            return None;
        };
        let mut stream = stream;
        if door.watch(&mut stream, id).is_err() {
            return None;
        }
        self.peers.hold(stream)
    }
}

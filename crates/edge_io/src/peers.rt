//! The connections that are held, by their numbers, and who of them is in line.

ghost use Rattle.std.specs.Prelude.{◌≡◌, ◌<◌, ◌≤◌, ◌+◌, ◌==◌, ◌||◌, ℕ, true, false, None, Some, [], ◌∷◌, ◌++◌, length, IfSome, OnOk, OnSome, if◌then◌else◌};
ghost use Rattle.std.specs.BTreeMap.{get, Updates, btree_map_len};
ghost use Rattle.std.specs.Ordering.{nat_cmp};
ghost use Rattle.edge_io.specs.Faults.{next_count};
ghost use Rattle.edge_io.specs.Hub.{FitsBuffer, TellsEnd};
ghost use Rattle.edge_io.specs.Acts.{is_event_of};
ghost use Rattle.edge_io.specs.Peers.{Hears, HearsPeer, SendsTo, Wakes, is_whole, used_after, without};
ghost use Rattle.edge_io.specs.declared.event.Event.TheVariants as events;

use crate::event::Event;
use crate::failed::{Failed, next_count};
use crate::follow::{Following, follow, reading_as, reading_of, sending_of};
use crate::turns::Turns;
use std::alloc::Global;
use std::collections::BTreeMap;
use std::io::{Read, Write};

/// A connection that is held.
#[derive(Drop)]
pub(crate) struct Peer<S> {
    pub(crate) stream: S,
    /// Its peer sends no more.
    pub(crate) ended: bool,
    pub(crate) in_line: bool,
    /// What the count of uses was when it was held, read or took bytes last.
    pub(crate) used: u64,
}

/// The connections that are held, by their numbers, and who of them is in line.
pub(crate) struct Peers<S> {
    pub(crate) held: BTreeMap<u64, Peer<S>>,
    pub(crate) turns: Turns,
    /// The number of the connection that was held last.
    pub(crate) last: u64,
    /// A send took all that it was offered, since the last wait.
    pub(crate) moved: bool,
    /// How often a connection was held, read or offered bytes.
    pub(crate) uses: u64,
}

impl<S: Drop> Drop for Peers<S> {
    fn drop(self) {
        let Peers {
            held: _,
            turns: _,
            last: _,
            moved: _,
            uses: _,
        } = self;
    }
}

impl<S> Peers<S> {
    /// None.
    pub(crate) fn new(alloc: Global) -> Peers<S>
        ensures none { (id : ℕ) → get nat_cmp result.held id ≡ None }
        ensures last { result.last ≡ 0 }
        ensures line { result.turns.waiting ≡ [] }
    {
        Peers {
            held: BTreeMap::new(alloc),
            turns: Turns::new(alloc),
            last: 0,
            moved: false,
            uses: 0,
        }
    }

    /// Keeps memory for a line of all that are held and of so many more.
    pub(crate) fn make_room(&mut self, more: usize) -> Result<(), Failed>
        ensures room { OnOk result
            (btree_map_len self.old.held + more ≤ self.new.turns.room) }
        ensures same { self.new ≡ record self.old { turns = self.new.turns } }
        ensures line { self.new.turns.waiting ≡ self.old.turns.waiting }
    {
        let Some(count) = self.held.len().checked_add(more) else {
            return Err(Failed);
        };
        match self.turns.make_room(count) {
            Ok(()) => Ok(()),
            Err(_) => Err(Failed),
        }
    }

    /// The number of the next connection.
    pub(crate) fn next_number(&self) -> Option<u64>
        ensures value { IfSome result (λ id. id ≡ self.now.last + 1) }
    {
        self.last.checked_add(1)
    }

    /// Takes the next number, which no connection has then.
    pub(crate) fn take_number(&mut self) -> Option<u64>
        ensures value { IfSome result (λ id. id ≡ self.old.last + 1) }
        ensures counts { OnSome result (self.new ≡ record self.old { last = self.old.last + 1 }) }
        ensures none { result ≡ None → self.new ≡ self.old }
    {
        let number = self.next_number()?;
        self.last = number;
        Some(number)
    }

    /// Holds a connection under the next number, where there is memory; else it is dropped.
    pub(crate) fn hold(&mut self, stream: S) -> Option<Event>
    where
        S: Drop,
        ensures own { IfSome result (λ e. e ≡ events.Opened self.new.last) }
        ensures counts { OnSome result (self.new.last ≡ self.old.last + 1) }
        ensures held { OnSome result (Updates nat_cmp self.old.held self.new.held self.new.last
            (Some (record {
              stream = stream;
              ended = false;
              in_line = false;
              used = next_count self.old.uses;
            }))) }
        ensures uses { OnSome result (self.new.uses ≡ next_count self.old.uses) }
        ensures none { result ≡ None → self.new.last ≡ self.old.last }
        ensures none_held { result ≡ None → (id : ℕ) →
            get nat_cmp self.new.held id ≡ get nat_cmp self.old.held id }
        ensures line { self.new.turns ≡ self.old.turns }
    {
        let Some(id) = self.next_number() else {
            return None;
        };
        let used = next_count(self.uses);
        let peer = Peer {
            stream,
            ended: false,
            in_line: false,
            used,
        };
        if self.held.insert(id, peer).is_err() {
            return None;
        }
        self.last = id;
        self.uses = used;
        Some(Event::Opened { id })
    }

    /// Puts a connection in line that may have something to read.
    pub(crate) fn wake(&mut self, id: u64)
        ensures woken { Wakes (get nat_cmp self.old.held id) (get nat_cmp self.new.held id) id
            self.old.turns self.new.turns }
        ensures others { (q : ℕ) → (q == id) ≡ false →
            get nat_cmp self.new.held q ≡ get nat_cmp self.old.held q }
        ensures last { self.new.last ≡ self.old.last }
        ensures moved { self.new.moved ≡ self.old.moved }
        ensures uses { self.new.uses ≡ self.old.uses }
    {
        if let Some(peer) = self.held.get_mut(&id) {
            if !peer.in_line && !peer.ended {
                peer.in_line = self.turns.join(id);
            }
        }
    }

    /// Reads a connection once. With `hangup` an end of its peer is the loss of the connection.
    pub(crate) fn hear(&mut self, id: u64, buf: &mut [u8], hangup: bool) -> Option<Event>
    where
        S: Read + Drop,
        requires some { 0 < length buf.old }
        ensures fits { IfSome result (FitsBuffer buf.new) }
        ensures own { IfSome result (λ e. is_event_of id e ≡ true) }
        ensures only { IfSome result (TellsEnd hangup) }
        ensures heard { Hears S.remaining hangup (next_count self.old.uses)
            (get nat_cmp self.old.held id) (get nat_cmp self.new.held id) id buf.new
            self.old.turns self.new.turns result }
        ensures uses { self.new.uses ≡ next_count self.old.uses }
        ensures others { (q : ℕ) → (q == id) ≡ false →
            get nat_cmp self.new.held q ≡ get nat_cmp self.old.held q }
        ensures last { self.new.last ≡ self.old.last }
        ensures moved { self.new.moved ≡ self.old.moved }
    {
        self.uses = next_count(self.uses);
        let Some(peer) = self.held.get_mut(&id) else {
            return None;
        };
        let follows = heard(peer, &mut self.turns, self.uses, id, buf, hangup);
        if follows.gone {
            let _lost = self.held.remove(&id);
        }
        follows.event
    }

    /// Offers bytes to a connection, which is let go where that fails.
    pub(crate) fn send(&mut self, id: u64, piece: &[u8]) -> Result<usize, Failed>
    where
        S: Write + Drop,
        ensures sent { SendsTo S.contents (next_count self.old.uses)
            (get nat_cmp self.old.held id) (get nat_cmp self.new.held id) piece.now result }
        ensures uses { self.new.uses ≡ next_count self.old.uses }
        ensures others { (q : ℕ) → (q == id) ≡ false →
            get nat_cmp self.new.held q ≡ get nat_cmp self.old.held q }
        ensures moved { self.new.moved ≡ (self.old.moved || is_whole result (length piece.now)) }
        ensures line { self.new.turns ≡ self.old.turns }
        ensures last { self.new.last ≡ self.old.last }
    {
        self.uses = next_count(self.uses);
        let Some(peer) = self.held.get_mut(&id) else {
            return Err(Failed);
        };
        match sending_of(&mut peer.stream, piece) {
            Ok(n) => {
                self.moved = self.moved || n == piece.len();
                peer.used = used_after(n, self.uses, peer.used);
                Ok(n)
            }
            Err(failed) => {
                let _broken = self.held.remove(&id);
                Err(failed)
            }
        }
    }

    /// Lets a connection go; what was held of it.
    pub(crate) fn let_go(&mut self, id: u64) -> Option<Peer<S>>
        ensures gone { Updates nat_cmp self.old.held self.new.held id None }
        ensures value { result ≡ get nat_cmp self.old.held id }
        ensures line { self.new.turns.waiting ≡ without id self.old.turns.waiting }
        ensures room { self.new.turns.room ≡ self.old.turns.room }
        ensures last { self.new.last ≡ self.old.last }
        ensures moved { self.new.moved ≡ self.old.moved }
        ensures uses { self.new.uses ≡ self.old.uses }
    {
        self.turns.leave(id);
        self.held.remove(&id)
    }
}

/// Reads a connection once, and puts it in line again where more may come.
fn heard<S: Read>(
    peer: &mut Peer<S>,
    turns: &mut Turns,
    uses: u64,
    id: u64,
    buf: &mut [u8],
    hangup: bool,
) -> Following
    requires some { 0 < length buf.old }
    ensures heard { HearsPeer S.remaining hangup uses peer.old peer.new id buf.new
        turns.old turns.new result }
{
    let reading = reading_of(&mut peer.stream, buf);
    let follows = follow(id, reading_as(hangup, reading));
    peer.ended = peer.ended || follows.ended;
    peer.in_line = follows.again && turns.join(id);
    peer.used = uses;
    follows
}

/// When a connection was used last that took so many bytes of a send: now, where it took some.
fn used_after(n: usize, uses: u64, used: u64) -> u64
    ensures exact { result ≡ used_after n uses used }
{
    if n > 0 { uses } else { used }
}

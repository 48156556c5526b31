//! Which connection is let go where no descriptor is left for one more.

ghost use Rattle.std.specs.Prelude.{◌≡◌, ◌≢◌, ◌<◌, ◌≤◌, true, None, IsSome, length};
ghost use Rattle.std.specs.BTreeMap.{btree_map_len};
ghost use Rattle.edge_io.specs.Idle.{IsIdleLongest, LetsIdleGo, after_one, is_idle, longer};

use crate::door::DOOR;
use crate::event::Event;
use crate::leaving::Leaving;
use crate::peers::{Peer, Peers};
use std::collections::{BTreeMap, VecDeque};

/// A connection that is idle.
#[derive(Clone, Copy)]
pub(crate) struct Idle {
    pub(crate) id: u64,
    /// What the count of uses was when it was used last.
    pub(crate) used: u64,
}

/// Makes room for one more connection: the one goes that was left first; where none is left, the
/// one that was idle longest is let go, its loss is told, and the door stays in line.
pub(crate) fn make_way<S>(
    door_in_line: &mut bool,
    peers: &mut Peers<S>,
    leaving: &mut Leaving<S>,
    waiting: &VecDeque<u64>,
) -> Option<Event>
where
    S: Drop,
    ensures left { btree_map_len leaving.old.held ≢ 0 → result ≡ None }
    ensures fewer { btree_map_len leaving.old.held ≢ 0 →
        btree_map_len leaving.new.held < btree_map_len leaving.old.held }
    ensures kept { btree_map_len leaving.old.held ≢ 0 → peers.new.held ≡ peers.old.held }

    ensures idle { btree_map_len leaving.old.held ≡ 0 →
        LetsIdleGo peers.old.held waiting.now.items peers.new.held result }
    ensures last { peers.new.last ≡ peers.old.last }
    ensures moved { peers.new.moved ≡ peers.old.moved }
    ensures uses { peers.new.uses ≡ peers.old.uses }

    ensures stays { IsSome result → length peers.old.turns.waiting < peers.old.turns.room →
        door_in_line.new ≡ true }
    ensures out { result ≡ None → door_in_line.new ≡ door_in_line.old }
{
    if !leaving.is_empty() {
        leaving.drop_first(&mut peers.turns);
        return None;
    }
    let lost = peers.let_idle_go(waiting)?;
    *door_in_line = *door_in_line || peers.turns.join(DOOR);
    Some(lost)
}

impl<S> Peers<S> {
    /// Lets the connection go that was idle longest, where one is idle, and tells its loss.
    fn let_idle_go(&mut self, waiting: &VecDeque<u64>) -> Option<Event>
    where
        S: Drop,
        ensures idle { LetsIdleGo self.old.held waiting.now.items self.new.held result }
        ensures last { self.new.last ≡ self.old.last }
        ensures moved { self.new.moved ≡ self.old.moved }
        ensures uses { self.new.uses ≡ self.old.uses }
        ensures line { length self.new.turns.waiting ≤ length self.old.turns.waiting }
        ensures room { self.new.turns.room ≡ self.old.turns.room }
    {
        let Some(id) = idle_longest(&self.held, waiting) else {
            return None;
        };
        let _gone = self.let_go(id);
        Some(Event::Lost { id })
    }
}

/// The connection that was idle longest, where one is idle.
fn idle_longest<S>(held: &BTreeMap<u64, Peer<S>>, waiting: &VecDeque<u64>) -> Option<u64>
    ensures exact { IsIdleLongest held.now waiting.now.items result }
{
    let mut best: Option<Idle> = None;
    'held: for (id, peer) in held.iter() {
        best = after_one(best, *id, peer, waiting);
    }
    match best {
        Some(idle) => Some(idle.id),
        None => None,
    }
}

/// The one that was idle longest so far, after one more that may be idle.
fn after_one<S>(
    best: Option<Idle>,
    id: u64,
    peer: &Peer<S>,
    waiting: &VecDeque<u64>,
) -> Option<Idle>
    ensures exact { result ≡ after_one waiting.now.items best id peer.now }
{
    if is_idle(id, peer, waiting) {
        Some(longer(
            best,
            Idle {
                id,
                used: peer.used,
            },
        ))
    } else {
        best
    }
}

/// Which of the one that was idle longest so far and one more was idle longer.
fn longer(best: Option<Idle>, one: Idle) -> Idle
    ensures exact { result ≡ longer best one }
{
    match best {
        Some(best) if best.used <= one.used => best,
        _ => one,
    }
}

/// Whether a connection is idle: nothing of it waits in line, and it isn't one of those that wait.
fn is_idle<S>(id: u64, peer: &Peer<S>, waiting: &VecDeque<u64>) -> bool
    ensures exact { result ≡ is_idle waiting.now.items id peer.now }
{
    !(peer.in_line || waiting.contains(&id))
}

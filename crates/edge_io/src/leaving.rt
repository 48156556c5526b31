//! Connections that were closed, from which what still comes is read for a while.

ghost use Rattle.std.specs.Prelude.{◌≡◌, ◌<◌, ◌≤◌, ◌-◌, ◌==◌, ℕ, true, false, None, option_map};
ghost use Rattle.std.specs.BTreeMap.{get, btree_map_len};
ghost use Rattle.std.specs.Ordering.{nat_cmp};
ghost use Rattle.std.specs.Time.{instant_nanos};
ghost use Rattle.edge_io.specs.Leaving.{Drains, DrainsOne, KeepsLeaver, is_over_at, most_leaving, rest_of};

use crate::follow::{follow, reading_of};
use crate::replies::Reading;
use crate::turns::Turns;
use std::alloc::Global;
use std::collections::BTreeMap;
use std::io::Read;
use std::time::{Duration, Instant};

/// How many connections are left at a time.
pub(crate) const MOST_LEAVING: usize = 128;

/// How many bytes are taken of one that is left.
const MOST_LEFT: usize = 16_777_216;

/// For how many seconds one is left.
const LONGEST: u64 = 10;

/// A connection that was closed.
#[derive(Drop)]
pub(crate) struct Leaver<S> {
    pub(crate) stream: S,
    /// How many bytes are taken yet.
    pub(crate) left: usize,
    pub(crate) since: Instant,
    pub(crate) in_line: bool,
}

/// Connections that were closed, by numbers that ascend as they were closed.
pub(crate) struct Leaving<S> {
    pub(crate) held: BTreeMap<u64, Leaver<S>>,
    ghost few: { btree_map_len held ≤ most_leaving },
}

impl<S: Drop> Drop for Leaving<S> {
    fn drop(self) {
        let Leaving { held: _ } = self;
    }
}

impl<S> Leaving<S> {
    /// None.
    pub(crate) fn new(alloc: Global) -> Leaving<S>
        ensures none { (n : ℕ) → get nat_cmp result.held n ≡ None }
    {
        Leaving {
            held: BTreeMap::new(alloc),
        }
    }

    /// Whether there is none.
    pub(crate) fn is_empty(&self) -> bool
        ensures value { result ≡ (btree_map_len self.now.held == 0) }
    {
        self.held.is_empty()
    }

    /// Keeps one under a number above all others; where as many are left as may be, the first of
    /// them goes. Where there is no memory it is dropped.
    pub(crate) fn keep(&mut self, turns: &mut Turns, number: u64, stream: S, since: Instant)
    where
        S: Drop,
        ensures kept { KeepsLeaver (get nat_cmp self.new.held number) stream since }
    {
        if self.held.len() >= MOST_LEAVING {
            self.drop_first(turns);
        }
        let leaver = Leaver {
            stream,
            left: MOST_LEFT,
            since,
            in_line: false,
        };
        let _kept = self.held.insert(number, leaver);
    }

    /// Lets the one go that was closed first.
    pub(crate) fn drop_first(&mut self, turns: &mut Turns)
    where
        S: Drop,
        ensures fewer { btree_map_len self.new.held ≤ btree_map_len self.old.held - 1 }
    {
        if let Some((number, _)) = self.held.pop_first() {
            turns.leave(number);
        }
    }

    /// Lets the one go that was closed first, where its time is over.
    fn drop_over(&mut self, turns: &mut Turns, now: Option<Instant>) -> bool
    where
        S: Drop,
    {
        let Some((_, leaver)) = self.held.first_key_value() else {
            return false;
        };
        if !is_over(leaver.since, now) {
            return false;
        }
        self.drop_first(turns);
        true
    }

    /// Lets all go whose time is over.
    pub(crate) fn drop_all_over(&mut self, turns: &mut Turns, now: Option<Instant>)
    where
        S: Drop,
    {
        'over: for _ in 0..MOST_LEAVING {
            if !self.drop_over(turns, now) {
                return;
            }
        }
    }

    /// Puts one in line of which something may have come.
    pub(crate) fn wake(&mut self, turns: &mut Turns, number: u64)
        ensures others { (q : ℕ) → (q == number) ≡ false →
            get nat_cmp self.new.held q ≡ get nat_cmp self.old.held q }
    {
        if let Some(leaver) = self.held.get_mut(&number) {
            if !leaver.in_line {
                leaver.in_line = turns.join(number);
            }
        }
    }

    /// Takes what came of one, and lets it go where nothing more is taken.
    pub(crate) fn drain(&mut self, turns: &mut Turns, number: u64)
    where
        S: Read + Drop,
        ensures drained { Drains S.remaining (get nat_cmp self.old.held number)
            (get nat_cmp self.new.held number) }
        ensures others { (q : ℕ) → (q == number) ≡ false →
            get nat_cmp self.new.held q ≡ get nat_cmp self.old.held q }
    {
        let Some(leaver) = self.held.get_mut(&number) else {
            return;
        };
        let stays = drained(leaver, turns, number);
        if !stays {
            self.held.remove(&number);
        }
    }
}

/// Takes what came of one once; whether it is left any longer.
fn drained<S: Read>(leaver: &mut Leaver<S>, turns: &mut Turns, number: u64) -> bool
    ensures drained { DrainsOne S.remaining leaver.old leaver.new result }
{
    let mut buf = [0u8; 16384];
    let reading = reading_of(&mut leaver.stream, &mut buf);
    match rest_of(leaver.left, reading) {
        Some(left) => {
            leaver.left = left;
            leaver.in_line = follow(number, reading).again && turns.join(number);
            true
        }
        None => false,
    }
}

/// How many bytes are taken after a reading, where more are taken at all.
fn rest_of(left: usize, reading: Reading) -> Option<usize>
    ensures exact { result ≡ rest_of left reading }
{
    match reading {
        Reading::Arrived { n } => { if n < left { Some(left - n) } else { None } }
        Reading::NotNow | Reading::Again => Some(left),
        Reading::Ended | Reading::Lost => None,
    }
}

/// Whether the time of one is over that was closed then; it is where the clock failed.
fn is_over(since: Instant, now: Option<Instant>) -> bool
    ensures exact { result ≡ is_over_at (instant_nanos since) (option_map instant_nanos now) }
{
    match now {
        Some(now) => now.duration_since(since) >= Duration::from_secs(LONGEST),
        None => true,
    }
}
